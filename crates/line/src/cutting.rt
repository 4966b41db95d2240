// How a line is cut: at every space.
ghost use Rattle.std.specs.Prelude.{◌≡◌, ◌+◌, ◌≤◌, [], ◌∷◌, length, nat_lt, Ok, Err, MatchOption, MatchResult};
ghost use Rattle.std.specs.Iterator.{at_most};
ghost use Rattle.std.specs.Option.{ForSome};
ghost use Rattle.rule.specs.Reading.{fields};
ghost use Rattle.line.specs.Cutting.{placed, told, fields_behind, parts, is_too_long, cut_of, fields_or_refusal};

use refusal::Refusal;
use text::split_once;

// A line has at most as many bytes.
pub const LONGEST: usize = 80;

// A part of the line, and the place of its first byte.
#[derive(Clone, Copy)]
pub struct Field<'a> {
    pub bytes: &'a [u8],
    pub at: u32,
}

// The fields of a line. No call has more than six.
// A rule of the project: a case for each number of fields, and each field a part of the line itself, so that no memory is taken.
#[derive(Clone, Copy)]
pub enum Line<'a> {
    // no field is left
    Empty,
    One(Field<'a>),
    Two(Field<'a>, Field<'a>),
    Three(Field<'a>, Field<'a>, Field<'a>),
    Four(Field<'a>, Field<'a>, Field<'a>, Field<'a>),
    Five(Field<'a>, Field<'a>, Field<'a>, Field<'a>, Field<'a>),
    Six(Field<'a>, Field<'a>, Field<'a>, Field<'a>, Field<'a>, Field<'a>),
    // six fields, and the first one too many
    More(Field<'a>, Field<'a>, Field<'a>, Field<'a>, Field<'a>, Field<'a>, Field<'a>),
    // more bytes than a line has: not cut
    TooLong,
}

// What is still to be cut of a line.
#[derive(Drop)]
pub(crate) struct Cutter<'a> {
    pub left: Option<Field<'a>>,
    ghost short: { ForSome left (λ part. part.at + length part.bytes.now ≤ 80) },
}

impl<'a> Cutter<'a> {
    // All of a line.
    pub(crate) fn new(line: &'a [u8]) -> Cutter<'a>
        requires { length line.now ≤ 80 }
        ensures { fields_behind result.left ≡ placed 0 (fields line.now) }
    {
        Cutter {
            left: Some(Field { bytes: line, at: 0 }),
        }
    }
}

impl<'a> Iterator for Cutter<'a> {
    type Item = Field<'a>;

    ghost next_gives = { λ s r t. MatchOption r ((fields_behind s.left ≡ []) × (fields_behind t.left ≡ [])) (λ f. fields_behind s.left ≡ told f ∷ fields_behind t.left) };

    ghost remaining = { λ s. at_most (length (fields_behind s.left)) };

    // What stands before the next space, or else all that is left.
    #[tactic(auto, using(crate::proofs::Cuts::lengths_split))]
    fn next(&mut self) -> Option<Field<'a>> {
        let part = self.left?;
        match split_once(part.bytes, b' ') {
            Some((bytes, behind)) => {
                let at = part.at + bytes.len() as u32 + 1;
                self.left = Some(Field { bytes: behind, at });
                Some(Field { bytes, at: part.at })
            }
            None => {
                self.left = None;
                Some(part)
            }
        }
    }
}

// The fields of a line, if it is not too long.
pub fn cut(line: &[u8]) -> Line<'_>
    ensures long { is_too_long result ≡ nat_lt 80 (length line.now) }
    ensures fields { parts result ≡ cut_of line.now }
{
    if line.len() > LONGEST {
        return Line::TooLong;
    }
    let mut fields = Cutter::new(line);
    let Some(a) = fields.next() else {
        return Line::Empty;
    };
    let Some(b) = fields.next() else {
        return Line::One(a);
    };
    let Some(c) = fields.next() else {
        return Line::Two(a, b);
    };
    let Some(d) = fields.next() else {
        return Line::Three(a, b, c);
    };
    let Some(e) = fields.next() else {
        return Line::Four(a, b, c, d);
    };
    let Some(f) = fields.next() else {
        return Line::Five(a, b, c, d, e);
    };
    let Some(g) = fields.next() else {
        return Line::Six(a, b, c, d, e, f);
    };
    Line::More(a, b, c, d, e, f, g)
}

// The fields of a line. One that is too long is refused at its first byte too many.
#[tactic(auto, using(crate::proofs::Stepping::not_too_long))]
pub fn cut_fields(line: &[u8]) -> Result<Line<'_>, Refusal>
    ensures { MatchResult result (λ fields. fields_or_refusal line.now ≡ Ok (parts fields)) (λ refusal. fields_or_refusal line.now ≡ Err refusal) }
{
    match cut(line) {
        Line::TooLong => Err(Refusal::Unreadable { at: LONGEST as u32 }),
        fields => Ok(fields),
    }
}
