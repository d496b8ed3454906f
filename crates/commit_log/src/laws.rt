//! Laws of logs, for any bytes.

ghost use Rattle.std.specs.Prelude.{◌≡◌, ◌++◌, [], ℕ, List};
ghost use Rattle.std.specs.List.{AllByRecursion};
ghost use Rattle.commit_log.specs.Change.{Change, IsInRange, written};
ghost use Rattle.commit_log.specs.Base.{DamagesBase, HasBase};
ghost use Rattle.commit_log.specs.Entry.{Entry};
ghost use Rattle.commit_log.specs.Entry as entry;
ghost use Rattle.commit_log.specs.Log.{DamagesLog, IsLog, IsLogged, log_text};
ghost use Rattle.journal_core.specs.Fronts.{IsHeader};
ghost use Rattle.journal_core.specs.Records.{IsShort};
ghost use Rattle.journal_core.specs.declared.header.Header.{Header};

/// A payload is written for one change, and bytes are a log of one list of changes, or are damaged at one place.
pub fn a_log_reads_one_way()
    ensures one_change { (a b : Change)
        → IsInRange a → IsInRange b → written a ≡ written b → a ≡ b }
    ensures one_list { (front : List ℕ) (before : List (List ℕ)) (cs ds : List Change)
        (bytes : List ℕ) → IsLog front before cs bytes → IsLog front before ds bytes → cs ≡ ds }
    ensures one_place { (front : List ℕ) (before : List (List ℕ)) (a b : ℕ) (bytes : List ℕ)
        → DamagesLog front before a bytes → DamagesLog front before b bytes → a ≡ b }
    ensures not_both { (front : List ℕ) (before : List (List ℕ)) (changes : List Change) (at : ℕ)
        (bytes : List ℕ) → IsLog front before changes bytes → DamagesLog front before at bytes → ⊥ }
{}

/// A log that is written is read, whatever follows it.
pub fn a_written_log_is_read()
    ensures { (front : List ℕ) (before : List (List ℕ)) (changes : List Change) (rest : List ℕ)
        → AllByRecursion IsShort before → AllByRecursion IsLogged changes
        → IsLog front before changes (log_text front before changes ++ rest) }
{}

/// A payload is written for one entry, and bytes have one base, or are damaged in it at one place.
pub fn a_base_reads_one_way()
    ensures one_entry { (a b : Entry)
        → entry.IsInRange a → entry.IsInRange b → entry.written a ≡ entry.written b → a ≡ b }
    ensures one_base { (h : Header) (es fs : List Entry) (bytes : List ℕ)
        → IsHeader h → HasBase h es bytes → HasBase h fs bytes → es ≡ fs }
    ensures one_place { (h : Header) (left a b : ℕ) (bytes : List ℕ) → IsHeader h
        → DamagesBase h [] left a bytes → DamagesBase h [] left b bytes → a ≡ b }
    ensures not_both { (h : Header) (es : List Entry) (at : ℕ) (bytes : List ℕ) → IsHeader h
        → HasBase h es bytes → DamagesBase h [] h.base_count at bytes → ⊥ }
{}
