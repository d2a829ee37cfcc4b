// The kinds of a scenario's entries.
ghost use Rattle.files.specs.Kinds.{KindOf};

// A post, which has a matrix, and a frame, which has none.
#[derive(Clone, Copy, Debug, PartialEq, Eq)]
pub enum Kind {
    Post,
    Frame,
}

// A number that no kind has.
#[derive(Clone, Copy, Debug, PartialEq, Eq)]
pub struct UnknownKind;

// The kind with a number.
impl TryFrom<u32> for Kind {
    type Error = UnknownKind;

    ghost try_from_gives = { KindOf };

    fn try_from(number: u32) -> Result<Kind, UnknownKind> {
        match number {
            0 => Ok(Kind::Post),
            1 => Ok(Kind::Frame),
            _ => Err(UnknownKind),
        }
    }
}
