//! Laws of opening, for any bytes.

ghost use Rattle.std.specs.Prelude.{◌≡◌, ◌++◌, ℕ, List};
ghost use Rattle.std.specs.List.{AllByRecursion};
ghost use Rattle.journal_core.specs.Records.{IsShort, IsNoJournal, Opens, Breaks, header, text};

/// Bytes open to one list of payloads, or are damaged at one place, or are no journal, and never two of these.
pub fn bytes_open_one_way()
    ensures one_list { (front : List ℕ) (ps qs : List (List ℕ)) (bytes : List ℕ)
        → Opens front ps bytes → Opens front qs bytes → ps ≡ qs }
    ensures one_break { (front : List ℕ) (ps qs : List (List ℕ)) (bytes : List ℕ)
        → Breaks front ps bytes → Breaks front qs bytes → ps ≡ qs }
    ensures not_both { (front : List ℕ) (ps qs : List (List ℕ)) (bytes : List ℕ)
        → Opens front ps bytes → Breaks front qs bytes → ⊥ }
    ensures header { (ps : List (List ℕ)) (bytes : List ℕ)
        → Opens header ps bytes → ¬ IsNoJournal bytes }
    ensures broken_header { (ps : List (List ℕ)) (bytes : List ℕ)
        → Breaks header ps bytes → ¬ IsNoJournal bytes }
{}

/// A written text opens to its payloads, whatever follows it.
pub fn a_text_opens()
    ensures { (front : List ℕ) (ps : List (List ℕ)) (rest : List ℕ)
        → AllByRecursion IsShort ps → Opens front ps (text front ps ++ rest) }
{}
