//! The first words of script lines that go on after them.
ghost use Rattle.std.specs.Prelude.{◌≡◌, ◌≢◌, MatchOption};
ghost use Rattle.std.specs.Bool.{OnTrue, OnFalse};
ghost use Rattle.shell_lang.specs.declared.word.Word as word;
ghost use Rattle.shell_lang.specs.Word.{word_text};

/// The first word of a line that goes on after it.
#[derive(Clone, Copy, Debug, PartialEq, Eq)]
pub(crate) enum Word {
    Register,
    RegisterNew,
    Revise,
    RegisterMol,
    ReviseMol,
    RegisterSd,
    Withdraw,
    Show,
    Data,
    Search,
    Same,
    Similar,
    Open,
    Next,
    Close,
    Watch,
    Hits,
    Unwatch,
}

const WORDS: [Word; 18] = [
    Word::Register,
    Word::RegisterNew,
    Word::Revise,
    Word::RegisterMol,
    Word::ReviseMol,
    Word::RegisterSd,
    Word::Withdraw,
    Word::Show,
    Word::Data,
    Word::Search,
    Word::Same,
    Word::Similar,
    Word::Open,
    Word::Next,
    Word::Close,
    Word::Watch,
    Word::Hits,
    Word::Unwatch,
];

impl Word {
    /// The word that the bytes spell.
    pub(crate) fn of_bytes(bytes: &[u8]) -> Option<Word>
        ensures { MatchOption result ((w : word.Word) → word_text w ≢ bytes.now)
            (λ w. word_text w ≡ bytes.now) }
    {
        for word in WORDS {
            if word.is_spelled(bytes) {
                return Some(word);
            }
        }
        None
    }

    /// True if the bytes spell the word.
    pub(crate) fn is_spelled(self, bytes: &[u8]) -> bool
        ensures same { OnTrue result (word_text self ≡ bytes.now) }
        ensures other { OnFalse result (word_text self ≢ bytes.now) }
    {
        are_same(self.text().as_bytes(), bytes)
    }

    fn text(self) -> &'static str
        ensures { result.now ≡ word_text self }
    {
        match self {
            Word::Register => "register",
            Word::RegisterNew => "register-new",
            Word::Revise => "revise",
            Word::RegisterMol => "register-mol",
            Word::ReviseMol => "revise-mol",
            Word::RegisterSd => "register-sd",
            Word::Withdraw => "withdraw",
            Word::Show => "show",
            Word::Data => "data",
            Word::Search => "search",
            Word::Same => "same",
            Word::Similar => "similar",
            Word::Open => "open",
            Word::Next => "next",
            Word::Close => "close",
            Word::Watch => "watch",
            Word::Hits => "hits",
            Word::Unwatch => "unwatch",
        }
    }
}

/// True if the bytes are the same.
pub fn are_same(bytes: &[u8], others: &[u8]) -> bool
    ensures same { OnTrue result (bytes.now ≡ others.now) }
    ensures other { OnFalse result (bytes.now ≢ others.now) }
{
    bytes == others
}
