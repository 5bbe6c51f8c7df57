//! A comparison from its texts to the bytes that are written.

ghost use Rattle.std.specs.Prelude.{map, IfOk, OnErr};
ghost use Rattle.leg_app.specs.Answer.{TakesAnswer, TakesPart};
ghost use Rattle.leg_grammar.specs.declared.profile.Profile.TheVariants.{Narrow};
ghost use Rattle.leg_app.specs.Comparison.{IsComparison, IsComparisonExplained};

use crate::compare::compare_texts_as;
use crate::compare_end::{ComparisonEnd, one_order};
use crate::run_command::{RunFault, run_out, write_text};
use leg_grammar::Profile;
use std::alloc::Allocator;
use std::io::Write;

/// Writes what `compare` answers to the texts of the LEFs, in order, and of two DEFs, read in a profile, and returns how it ended. The
/// answer's text is made whole before its first byte is written, and nothing is flushed. After a fault the writer has taken a proper prefix
/// of it.
pub fn run_compare_as<'a, W: Write, A: Allocator + Copy>(
    alloc: A,
    profile: Profile,
    lefs: &[&'a [u8]],
    before: &[u8],
    after: &[u8],
    out: &mut W,
) -> Result<ComparisonEnd<'a, A>, RunFault>
    ensures whole { IfOk result (λ ended. TakesAnswer
        (IsComparisonExplained profile (map (λ t. t.now) lefs.now) before.now after.now ended.reason ended.order) ended.status
        (W.contents out.old) (W.contents out.new)) }
    ensures cut { OnErr result (TakesPart (IsComparison profile (map (λ t. t.now) lefs.now) before.now after.now)
        (W.contents out.old) (W.contents out.new)) }
{
    match compare_texts_as(alloc, profile, lefs, before, after) {
        Ok(answer) => {
            write_text(out, &answer.text)?;
            Ok(ComparisonEnd {
                status: answer.status,
                reason: answer.reason,
                order: answer.order,
            })
        }
        Err(_) => {
            let status = run_out(out)?;
            Ok(ComparisonEnd {
                status,
                reason: None,
                order: one_order(),
            })
        }
    }
}

/// The same of texts that are read in the narrow profile: `run_compare_as` of `Profile::Narrow`.
pub fn run_compare<'a, W: Write, A: Allocator + Copy>(
    alloc: A,
    lefs: &[&'a [u8]],
    before: &[u8],
    after: &[u8],
    out: &mut W,
) -> Result<ComparisonEnd<'a, A>, RunFault>
    ensures whole { IfOk result (λ ended. TakesAnswer
        (IsComparisonExplained Narrow (map (λ t. t.now) lefs.now) before.now after.now ended.reason ended.order) ended.status
        (W.contents out.old) (W.contents out.new)) }
    ensures cut { OnErr result (TakesPart (IsComparison Narrow (map (λ t. t.now) lefs.now) before.now after.now)
        (W.contents out.old) (W.contents out.new)) }
{
    run_compare_as(alloc, Profile::Narrow, lefs, before, after, out)
}
