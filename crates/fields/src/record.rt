// What each record type has: both ways between it and its word, and how a word is known for one.
ghost use Rattle.std.specs.Prelude.{◌≡◌, ℕ, true, List};
ghost use Rattle.fields.specs.Word.{Field, fit, pack};
ghost use Rattle.fields.specs.Tag.{is_defining, is_continuation};

// A record that a word holds. `fixed`, of the types that show bits fixed, is no part of it: no body here could answer for the others.
pub trait Record: Copy {
    // The row of the table that its word is written by, and the record that a word holds.
    ghost row: { Self → List Field };

    ghost held: { ℕ → Self };

    // Whether each field is at most its largest value; then the word keeps them all.
    fn fits(self) -> bool
        ensures { result ≡ fit (row self) };

    fn build(self) -> u32
        ensures { result ≡ pack (row self) };

    fn take_apart(word: u32) -> Self
        ensures { result ≡ held word };

    // What was built is taken apart as it was.
    ghost there: { (r : Self) → fit (row r) ≡ true → held (pack (row r)) ≡ r };
}

// A record of a type of its own, which a defining word holds.
pub trait Defining: Record {
    ghost TAG: { ℕ };

    const TAG: u32;

    // Whether the word is of this type.
    fn is(word: u32) -> bool
        ensures { result ≡ is_defining TAG word }
    {
        crate::is_defining(word, Self::TAG)
    }
}

// A record that stands behind one of a type, in a continuation word.
pub trait Continuation: Record {
    // Whether the word can be one.
    fn is(word: u32) -> bool
        ensures { result ≡ is_continuation word }
    {
        crate::is_continuation(word)
    }
}
