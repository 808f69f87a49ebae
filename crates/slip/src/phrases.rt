// All that the program says, in one place.
use refusal::{Expected, Refusal};

pub(crate) const REFUSED: &str = "refused ";

pub(crate) const COLON: &str = ": ";

pub(crate) const OPEN: &str = " (";

pub(crate) const CLOSE: &str = ")";

pub(crate) const COMMA: &str = ", ";

pub(crate) const EXPECTED: &str = "expected: ";

pub(crate) const EXPRESSION: &str = "expression  ";

pub(crate) const CANONICAL: &str = "canonical   ";

pub(crate) const AS_WRITTEN: &str = "as written";

pub(crate) const NONE: &str = "none, ";

pub(crate) const TREE: &str = "tree        ";

pub(crate) const MARGIN: &str = "            ";

pub(crate) const AND: &str = "AND";

pub(crate) const OR: &str = "OR";

pub(crate) const LAST: &str = "└─ ";

pub(crate) const BRANCH: &str = "├─ ";

pub(crate) const BAR: &str = "│  ";

pub(crate) const BLANK: &str = "   ";

pub(crate) const WITH: &str = " WITH ";

pub(crate) const WRITTEN: &str = "  (written ";

pub(crate) const FOUND: &str = "found       ";

pub(crate) const NOT_FOUND: &str = "found       nothing";

pub(crate) const SPACE: &str = " ";

pub(crate) const CHOICE: &str = "choice      ";

pub(crate) const ALSO: &str = "also        ";

pub(crate) const SET: &str = "set         ";

pub(crate) const SETS: &str = "sets        ";

pub(crate) const MINIMAL_SET: &str = " minimal set, ";

pub(crate) const MINIMAL_SETS: &str = " minimal sets, ";

pub(crate) const COUNTED: &str = " examined";

pub(crate) const GO_ON: &str = "; go on with --from ";

pub(crate) const FINISHED: &str = ", finished";

pub(crate) const EXAMINED: &str = "examined ";

pub(crate) const OF: &str = " of ";

pub(crate) const RESUME: &str = " sets; resume with --from ";

pub(crate) const VALID: &str = "valid: ";

pub(crate) const ENTRY: &str = " entry";

pub(crate) const ENTRIES: &str = " entries";

pub(crate) const GAP: &str = "  ";

pub(crate) const BAD_COUNT: &str = ": its count is over 64, or its contents are cut short";

pub(crate) const BAD_END: &str = ": bytes stand behind the last body";

pub(crate) const BAD_ENTRY: &str = ": entry ";

pub(crate) const BAD_OFFSET: &str = "its offset is ";

pub(crate) const BEGINS: &str = ", but its body has to begin at ";

pub(crate) const BAD_LENGTH: &str = "its length is ";

pub(crate) const LENGTHS: &str = ", and not from 1 to 200";

pub(crate) const BAD_BODY_END: &str = "its body goes on behind the end of the file";

pub(crate) const BAD_BODY: &str = "its body is not one licence with at most an addition";

// The sentence of a refusal. Where the place of 6 is empty, the text may not end.
pub(crate) fn sentence(r: Refusal) -> &'static str {
    match r {
        Refusal::NotUtf8(_) => "this byte is not UTF-8",
        Refusal::TooLong => "the expression is longer than 1,024 bytes",
        Refusal::InvalidCharacters(_) => "no licence, operator or parenthesis can begin here",
        Refusal::UnknownTerm(_) => "this is no operator and no name that is known",
        Refusal::SeparatedPlus(_) => "white space stands before the +",
        Refusal::Unexpected(at, _) if at.start == at.end => "the expression may not end here",
        Refusal::Unexpected(_, _) => "this may not stand here",
        Refusal::UnopenedParens(_) => "this ) closes no parenthesis",
        Refusal::UnclosedParens(_) => "this ( is never closed",
        Refusal::Empty(_) => "the expression is empty",
        Refusal::DeprecatedLicenseId(_) => "this name is deprecated (--deprecated allows it)",
        Refusal::GnuNoPlus(_) => "a GNU name takes no + (--gnu-plus allows it)",
        Refusal::GnuPlusWithSuffix(_) => "a name that ends in -or-later takes no +",
        Refusal::UnknownLicense(_) => "this name has no -or-later name, and so takes no +",
        Refusal::TooManyLeaves(_) => "this is the 65th licence, and 64 are the most",
        Refusal::TooDeep(_) => "this is the 33rd open parenthesis, and 32 are the most",
        Refusal::NoRoom(_) => "the canonical text does not fit",
        Refusal::BadList(_) => "the list file is wrong",
        Refusal::TooManyRequirements(_) => "more than 30 licensees of the list are found",
        Refusal::RequirementsUnmet => "the expression reads, but the list does not meet it",
        Refusal::BadCursor(_) => "the listing has no such cursor",
        Refusal::NoBudget => "a budget of 0 examines nothing",
    }
}

// What may stand where refusal 6 is given.
pub(crate) fn expected(e: Expected) -> &'static str {
    match e {
        Expected::Term => "a licence or (",
        Expected::Joint => "AND or OR",
        Expected::Tail => "AND, OR or )",
        Expected::Name => "AND, OR, WITH, ) or +",
        Expected::Suffixed => "AND, OR, WITH or )",
        Expected::Addition => "an exception or AdditionRef-..",
        Expected::Licence => "a licence",
    }
}
