//! The texts of a run, and how messages name them.

ghost use Rattle.std.specs.Prelude.{◌≡◌, length};
ghost use Rattle.leg_app_message.specs.Texts.{path_of, text_of, part_of};

use leg_grammar::Profile;
use std::marker::Model;

/// The names of files, as they were given.
#[derive(Drop)]
pub struct Paths<'a> {
    /// Those of the LEFs, in order.
    pub lefs: &'a [&'a [u8]],
    /// That of the DEF.
    pub def: &'a [u8],
}

/// The texts of a run, how they are read, and the names of their files.
#[derive(Drop)]
pub struct Texts<'a> {
    /// The profile in which the texts are read.
    pub profile: Profile,
    /// The names; none where the texts are those of standard input.
    pub paths: Option<Paths<'a>>,
    /// The texts of the LEFs, in order.
    pub lefs: &'a [&'a [u8]],
    /// The text of the DEF.
    pub def: &'a [u8],
}

impl<'a> Model for Texts<'a> {
    ghost use Rattle.std.specs.Prelude.{map, option_map};
    ghost use Rattle.leg_app_message.specs.Texts.{TextsModel};

    ghost Value = { TextsModel };

    ghost view = { λ t. record {
      profile = t.profile;
      names = option_map (λ paths. record { lefs = map (λ l. l.now) paths.lefs.now; def = paths.def.now }) t.paths;
      lefs = map (λ l. l.now) t.lefs.now;
      def = t.def.now;
    } };
}

impl<'a> Texts<'a> {
    /// The number of the DEF: LEFs count from 0, and it is next.
    pub(crate) fn def_number(&self) -> usize
        ensures { result ≡ length self.now.lefs }
    {
        self.lefs.len()
    }

    /// The text of this number.
    pub(crate) fn text(&self, number: usize) -> &'a [u8]
        ensures { result.now ≡ text_of self.now number }
    {
        match self.lefs.get(number) {
            Some(lef) => lef,
            None => self.def,
        }
    }

    /// The name of the file of this number, as it was given; `-` for standard input.
    pub(crate) fn path(&self, number: usize) -> &'a [u8]
        ensures { result.now ≡ path_of self.now number }
    {
        let Some(paths) = &self.paths else {
            return b"-";
        };
        match paths.lefs.get(number) {
            Some(path) => path,
            None => paths.def,
        }
    }

    /// Which part of standard input the text of this number is; empty for files.
    pub(crate) fn part(&self, number: usize) -> &'static [u8]
        ensures { result.now ≡ part_of self.now number }
    {
        if self.paths.is_some() {
            b""
        } else if number < self.lefs.len() {
            b"in the LEF: "
        } else {
            b"in the DEF: "
        }
    }
}
