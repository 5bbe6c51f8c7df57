//! A command with the message on its answer, for C.

ghost use Rattle.std.specs.Prelude.{◌≡◌, map, IfSome, IfNone};
ghost use Rattle.leg_app.specs.declared.end.Halt.TheVariants.{Usage};
ghost use Rattle.leg_app.specs.End.{halt_code};
ghost use Rattle.leg_c_call.specs.Call.{request_of};
ghost use Rattle.leg_c_call.specs.Explanation.{named_texts, AnswersExplained};

use leg_c_memory::Memory;

/// `leg_c_call::call_explained`, for C.
#[unsafe(no_mangle)]
pub extern "C" fn lefdef_run_explained(
    memory: Memory,
    command: u32,
    lef_names: &[&[u8]],
    def_name: &[u8],
    lefs: &[&[u8]],
    def: &[u8],
    out: &mut [u8],
    length: &mut usize,
    message: &mut [u8],
    message_length: &mut usize,
) -> u32
    ensures answer { IfSome (request_of command) (λ asked.
        AnswersExplained asked.0 (named_texts asked.1 (map (λ n. n.now) lef_names.now) def_name.now (map (λ t. t.now) lefs.now) def.now)
        out.old out.new length.new result message.old message.new message_length.new) }
    ensures unknown { IfNone (request_of command)
        ((result ≡ halt_code Usage) × (length.new ≡ 0) × (out.new ≡ out.old) × (message_length.new ≡ 0) × (message.new ≡ message.old)) }
{
    leg_c_call::call_explained(
        memory,
        command,
        lef_names,
        def_name,
        lefs,
        def,
        out,
        length,
        message,
        message_length,
    )
}
