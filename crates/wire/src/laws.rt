//! What the definitions of spelling and reading come to. Each function here does nothing: its contract is a theorem.

ghost use Rattle.wire.specs.Groups.{SpellingIsGrouped};
ghost use Rattle.wire.specs.Numbers.{ReadsBack, HasOneSpelling, EndsWhereCut};

/// Every number that can be spelled reads back from its spelling, whatever follows it.
pub fn spelled_reads_back()
    ensures { ReadsBack }
{}

/// Whatever reads without a fault is the spelling of its number, so each number has exactly one.
pub fn read_is_spelled()
    ensures { HasOneSpelling }
{}

/// The bytes end too early exactly where up to three bytes are left and each says that more follow.
/// Every other fault is a misspelling.
pub fn cut_ends()
    ensures { EndsWhereCut }
{}

/// The spelling of a number is its groups of seven bits, the lowest first, as few as can be, each but the last
/// with its top bit set; and nothing else is.
pub fn spelling_is_grouped()
    ensures { SpellingIsGrouped }
{}
