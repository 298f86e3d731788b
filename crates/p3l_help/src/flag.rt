// The words that request a page wherever they are.

ghost use Rattle.std.specs.Prelude.{◌≡◌};
ghost use Rattle.std.specs.Option.{option_map};
ghost use Rattle.p3l_help.specs.Flag.{before_dashes, dashes_in, first_flag, flag_of, request_among, topic_of};

/// A request for help or for the version.
#[derive(Clone, Copy, Debug, Drop, PartialEq, Eq)]
pub enum Flag {
    /// Help on what the words are about.
    Help,
    /// The version of the program.
    Version,
}

impl Flag {
    /// The topic that is requested where help would be about this one.
    pub(crate) fn topic(self, about: &str) -> &str
        ensures { result.now ≡ topic_of about.now self }
    {
        match self {
            Flag::Help => about,
            Flag::Version => "version",
        }
    }
}

/// The request that a word makes, if it makes one.
pub(crate) fn flag_in(word: &str) -> Option<Flag>
    ensures { result ≡ flag_of word.now }
{
    match word {
        "--help" | "-h" => Some(Flag::Help),
        "--version" | "-V" => Some(Flag::Version),
        _ => None,
    }
}

/// The place of the first `--`.
fn dashes_in(words: &[&str]) -> Option<usize>
    ensures { result ≡ dashes_in words.now }
{
    words.iter().position(|word| *word == "--")
}

/// The words before the first `--`.
fn before_dashes<'a>(words: &'a [&'a str]) -> &'a [&'a str]
    ensures { result.now ≡ before_dashes words.now }
{
    match dashes_in(words) {
        Some(end) => &words[..end],
        None => words,
    }
}

/// The first word that requests something.
fn request_among<'a>(words: &'a [&'a str]) -> Option<&'a str>
    ensures { option_map (λ word. word.now) result ≡ request_among words.now }
{
    words
        .iter()
        .find(|word| flag_in(word).is_some())
        .map(|word| *word)
}

/// The request of the first word before `--` that makes one.
pub(crate) fn flag_among(words: &[&str]) -> Option<Flag>
    ensures { result ≡ first_flag words.now }
{
    match request_among(before_dashes(words)) {
        Some(word) => flag_in(word),
        None => None,
    }
}
