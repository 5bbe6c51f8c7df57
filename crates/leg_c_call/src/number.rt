//! The numbers of what is asked.

ghost use Rattle.std.specs.Prelude.{◌≡◌};
ghost use Rattle.leg_c_call.specs.Call.{command_of, profile_of, request_of};

use leg_app_input::Command;
use leg_grammar::{Masks, Profile, Soft};

/// The command of this number, and the profile in which its texts are read; none where no command has the number, or its flags do not go
/// together.
///
/// The command is that of the number's remainder by 256: commands are counted from 0 on, in the order in which `Command` lists them. The
/// flags are its quotient: 1 for the wide profile, and with it 2 where masks are dropped, and 4 where soft blockages are dropped, or 8
/// where they are hard ones.
pub fn request_of(number: u32) -> Option<(Command, Profile)>
    ensures { result ≡ request_of number }
{
    command_of(number % 256).zip(profile_of(number / 256))
}

/// The command of this number without flags.
fn command_of(number: u32) -> Option<Command>
    ensures { result ≡ command_of number }
{
    match number {
        0 => Some(Command::Check),
        1 => Some(Command::PlaceCheck),
        2 => Some(Command::Measure),
        3 => Some(Command::Legalise),
        4 => Some(Command::Route),
        5 => Some(Command::Flow),
        6 => Some(Command::Finish),
        7 => Some(Command::Print),
        _ => None,
    }
}

/// The profile of these flags. As in the list of the definition, each number up to the last profile's has a place of its own.
fn profile_of(flags: u32) -> Option<Profile>
    ensures { result ≡ profile_of flags }
{
    match flags {
        0 => Some(Profile::Narrow),
        1 => Some(Profile::Wide {
            masks: Masks::Refused,
            soft: Soft::Refused,
        }),
        2 => None,
        3 => Some(Profile::Wide {
            masks: Masks::Dropped,
            soft: Soft::Refused,
        }),
        4 => None,
        5 => Some(Profile::Wide {
            masks: Masks::Refused,
            soft: Soft::Dropped,
        }),
        6 => None,
        7 => Some(Profile::Wide {
            masks: Masks::Dropped,
            soft: Soft::Dropped,
        }),
        8 => None,
        9 => Some(Profile::Wide {
            masks: Masks::Refused,
            soft: Soft::Hard,
        }),
        10 => None,
        11 => Some(Profile::Wide {
            masks: Masks::Dropped,
            soft: Soft::Hard,
        }),
        _ => None,
    }
}
