// The fields of a line, taken one after another.
ghost use Rattle.std.specs.Prelude.{◌≡◌, ◌≤◌, [], ◌∷◌, length, MatchResult, Option};
ghost use Rattle.std.specs.Option.{ok_or};
ghost use Rattle.std.specs.Fn.{FnOnceReturnsAt};
ghost use Rattle.refusal.specs.declared.Refusal.TheVariants.{Unreadable};
ghost use Rattle.rule.specs.Reading.{fields};
ghost use Rattle.line.specs.Cutting.{placed, told};
ghost use Rattle.line.specs.Left.{fields_left, OneTaken};
ghost use Rattle.line.specs.Reading.{place};
ghost use Rattle.line.specs.Steps.{no_more};

use crate::cutting::{Cutter, Field};
use refusal::Refusal;

// The fields that are left, each of which is cut when it is taken, and where the line ends.
#[derive(Drop)]
pub(crate) struct Fields<'a> {
    pub cutter: Cutter<'a>,
    pub end: u32,
}

impl<'a> Fields<'a> {
    // All the fields of a line.
    pub(crate) fn new(line: &'a [u8]) -> Fields<'a>
        requires { length line.now ≤ 80 }
        ensures fields { fields_left result ≡ placed 0 (fields line.now) }
        ensures end { result.end ≡ length line.now }
    {
        Fields {
            cutter: Cutter::new(line),
            end: line.len() as u32,
        }
    }

    // The next field, which is then no longer left.
    pub(crate) fn next_field(&mut self) -> Result<Field<'a>, Refusal>
        ensures next { MatchResult result (λ f. fields_left self.old ≡ told f ∷ fields_left self.new) (λ e. (fields_left self.old ≡ []) × (e ≡ Unreadable self.old.end)) }
        ensures taken { OneTaken self.old self.new }
    {
        self.cutter
            .next()
            .ok_or(Refusal::Unreadable { at: self.end })
    }

    // Where the next field begins.
    #[tactic(auto, using(crate::proofs::Cuts::first_place))]
    pub(crate) fn place(&self) -> u32
        ensures { result ≡ place 0 (fields_left self.now) }
    {
        match self.cutter.left {
            Some(part) => part.at,
            None => 0,
        }
    }

    // No field is left.
    pub(crate) fn no_more(&mut self) -> Result<(), Refusal>
        ensures { result ≡ no_more (fields_left self.old) }
    {
        match self.cutter.next() {
            Some(field) => Err(Refusal::Unreadable { at: field.at }),
            None => Ok(()),
        }
    }
}

impl<'a> Field<'a> {
    // What the field is read as.
    pub(crate) fn read_as<T: Drop, F: FnOnce(&[u8]) -> Option<T>>(
        self,
        read: F,
    ) -> Result<T, Refusal>
        requires { F.IsAlwaysCallable read }
        ensures { (value : Option T) × FnOnceReturnsAt F.FnOnce read self.entry.bytes.now value × (result ≡ ok_or value (Unreadable self.entry.at)) }
    {
        read(self.bytes).ok_or(Refusal::Unreadable { at: self.at })
    }
}
