// Refusals: one variant for each row of document 01's table, with what its last column says and nothing else.
#![tactic(auto)]

ghost use Rattle.std.specs.Prelude.{◌≡◌};
ghost use Rattle.refusal.specs.Refused.{number_of, column_of, set_of};

// A range of bytes.
#[derive(Clone, Copy, Debug, PartialEq, Eq)]
pub struct Span {
    pub start: usize,
    pub end: usize,
}

// What may stand where refusal 6 is given, by the token before.
#[derive(Clone, Copy, Debug, PartialEq, Eq)]
pub enum Expected {
    // none, AND, OR or `(` before
    Term,
    // `)` before
    Joint,
    // an exception or an AdditionRef before
    Tail,
    // a listed name or an unknown term before
    Name,
    // a LicenseRef or `+` before
    Suffixed,
    // WITH before
    Addition,
    // canonical text: a `+` with no listed licence just before
    Licence,
}

#[derive(Clone, Copy, Debug, PartialEq, Eq)]
pub enum Refusal {
    // 1: one byte, where the first ill-formed sequence starts
    NotUtf8(Span),
    // 2
    TooLong,
    // 3
    InvalidCharacters(Span),
    // 4
    UnknownTerm(Span),
    // 5
    SeparatedPlus(Span),
    // 6
    Unexpected(Span, Expected),
    // 7
    UnopenedParens(Span),
    // 8
    UnclosedParens(Span),
    // 9
    Empty(Span),
    // 10
    DeprecatedLicenseId(Span),
    // 11
    GnuNoPlus(Span),
    // 12
    GnuPlusWithSuffix(Span),
    // 13
    UnknownLicense(Span),
    // 14
    TooManyLeaves(Span),
    // 15
    TooDeep(Span),
    // 16: the length of the canonical text
    NoRoom(usize),
    // 17: the entry, 255 for count or contents, 254 for bytes after the end
    BadList(usize),
    // 18: how many are found
    TooManyRequirements(usize),
    // 19
    RequirementsUnmet,
    // 20: the cursor or place given
    BadCursor(u64),
    // 21
    NoBudget,
}

// The table's last column.
#[derive(Clone, Copy, Debug, PartialEq, Eq)]
pub enum Column {
    Nothing,
    Place(Span),
    PlaceAndSet(Span, Expected),
    Number(u64),
}

// The number of a refusal.
pub fn number(r: Refusal) -> u8
    ensures { result ≡ number_of r }
{
    match r {
        Refusal::NotUtf8(_) => 1,
        Refusal::TooLong => 2,
        Refusal::InvalidCharacters(_) => 3,
        Refusal::UnknownTerm(_) => 4,
        Refusal::SeparatedPlus(_) => 5,
        Refusal::Unexpected(_, _) => 6,
        Refusal::UnopenedParens(_) => 7,
        Refusal::UnclosedParens(_) => 8,
        Refusal::Empty(_) => 9,
        Refusal::DeprecatedLicenseId(_) => 10,
        Refusal::GnuNoPlus(_) => 11,
        Refusal::GnuPlusWithSuffix(_) => 12,
        Refusal::UnknownLicense(_) => 13,
        Refusal::TooManyLeaves(_) => 14,
        Refusal::TooDeep(_) => 15,
        Refusal::NoRoom(_) => 16,
        Refusal::BadList(_) => 17,
        Refusal::TooManyRequirements(_) => 18,
        Refusal::RequirementsUnmet => 19,
        Refusal::BadCursor(_) => 20,
        Refusal::NoBudget => 21,
    }
}

// The last column of a refusal's row.
pub fn last_column(r: Refusal) -> Column
    ensures { result ≡ column_of r }
{
    match r {
        Refusal::NotUtf8(s) => Column::Place(s),
        Refusal::TooLong => Column::Place(Span { start: 0, end: 0 }),
        Refusal::InvalidCharacters(s) => Column::Place(s),
        Refusal::UnknownTerm(s) => Column::Place(s),
        Refusal::SeparatedPlus(s) => Column::Place(s),
        Refusal::Unexpected(s, e) => Column::PlaceAndSet(s, e),
        Refusal::UnopenedParens(s) => Column::Place(s),
        Refusal::UnclosedParens(s) => Column::Place(s),
        Refusal::Empty(s) => Column::Place(s),
        Refusal::DeprecatedLicenseId(s) => Column::Place(s),
        Refusal::GnuNoPlus(s) => Column::Place(s),
        Refusal::GnuPlusWithSuffix(s) => Column::Place(s),
        Refusal::UnknownLicense(s) => Column::Place(s),
        Refusal::TooManyLeaves(s) => Column::Place(s),
        Refusal::TooDeep(s) => Column::Place(s),
        Refusal::NoRoom(n) => Column::Number(n as u64),
        Refusal::BadList(n) => Column::Number(n as u64),
        Refusal::TooManyRequirements(n) => Column::Number(n as u64),
        Refusal::RequirementsUnmet => Column::Nothing,
        Refusal::BadCursor(n) => Column::Number(n),
        Refusal::NoBudget => Column::Nothing,
    }
}

// The members of a set, a bit each, in document 01's order: licence 1, `(` 2, AND 4, OR 8, WITH 16, `)` 32, `+` 64, addition 128.
pub fn set(e: Expected) -> u8
    ensures { result ≡ set_of e }
{
    match e {
        Expected::Term => 0x03,
        Expected::Joint => 0x0C,
        Expected::Tail => 0x2C,
        Expected::Name => 0x7C,
        Expected::Suffixed => 0x3C,
        Expected::Addition => 0x80,
        Expected::Licence => 0x01,
    }
}
