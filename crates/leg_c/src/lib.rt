//! lefdef for C, and for what calls C: `library/lefdef.h` says how.
#![tactic(auto)]

ghost use Rattle.std.specs.Prelude.{◌≡◌, map, IfSome, IfNone};
ghost use Rattle.leg_app.specs.declared.end.Halt.TheVariants.{Usage};
ghost use Rattle.leg_app.specs.End.{halt_code};
ghost use Rattle.leg_c_call.specs.Call.{request_of, Answers};

mod explained;

pub use explained::lefdef_run_explained;
use leg_c_memory::Memory;

/// `leg_c_call::call`, for C.
#[unsafe(no_mangle)]
pub extern "C" fn lefdef_run(
    memory: Memory,
    command: u32,
    lefs: &[&[u8]],
    def: &[u8],
    out: &mut [u8],
    length: &mut usize,
) -> u32
    ensures answer { IfSome (request_of command) (λ asked.
        Answers asked.0 asked.1 (map (λ t. t.now) lefs.now) def.now out.old out.new length.new result) }
    ensures unknown { IfNone (request_of command)
        ((result ≡ halt_code Usage) × (length.new ≡ 0) × (out.new ≡ out.old)) }
{
    leg_c_call::call(memory, command, lefs, def, out, length)
}
