// All pages, and which words request which.

ghost use Rattle.std.specs.Prelude.{◌≡◌};
ghost use Rattle.std.specs.Option.{option_map};
ghost use Rattle.p3l_help.specs.Handbook.{answer_to, fault_on, is_command, named_topic};
ghost use Rattle.p3l_help.specs.Handbook.{page_on, requested_topic, topic_after};

use crate::flag::{flag_among, flag_in};
use crate::page::{Page, text_on};

/// The pages of a program.
#[derive(Clone, Copy, Debug, Drop)]
pub struct Handbook {
    /// A page for each command, by its first word.
    pub commands: &'static [Page],
    /// A page for each topic that is no command and no number.
    pub topics: &'static [Page],
    /// Pages of the numbers of refusal that texts of programs get.
    pub texts: &'static [Page],
    /// Those that modules and their parts get.
    pub modules: &'static [Page],
    /// Those that bodies and sheets of costs get.
    pub sheets: &'static [Page],
    /// Those that certificates and images get.
    pub evidence: &'static [Page],
    /// Those that picks, items and traces get.
    pub runs: &'static [Page],
}

impl Handbook {
    /// The text that the words request, if they request one that is there:
    ///
    /// - `help TOPIC`, a command, a number of refusal or another topic, and `help` alone, for
    ///   the topic `help`;
    /// - `--help` or `-h` first, or after a command among the words before `--`;
    /// - `--version` or `-V` in the same places.
    pub fn answer(&self, words: &[&str]) -> Option<&'static str>
        ensures { option_map (λ text. text.now) result ≡ answer_to self.now words.now }
    {
        match self.requested_topic(words) {
            Some(topic) => self.page_on(topic),
            None => None,
        }
    }

    /// The text of the page on a topic.
    fn page_on(&self, topic: &str) -> Option<&'static str>
        ensures { option_map (λ text. text.now) result ≡ page_on self.now topic.now }
    {
        match text_on(self.commands, topic) {
            Some(text) => Some(text),
            None => match text_on(self.topics, topic) {
                Some(text) => Some(text),
                None => self.fault_on(topic),
            },
        }
    }

    /// The text of the page on a number of refusal.
    fn fault_on(&self, number: &str) -> Option<&'static str>
        ensures { option_map (λ text. text.now) result ≡ fault_on self.now number.now }
    {
        if let Some(text) = text_on(self.texts, number) {
            return Some(text);
        }
        if let Some(text) = text_on(self.modules, number) {
            return Some(text);
        }
        if let Some(text) = text_on(self.sheets, number) {
            return Some(text);
        }
        if let Some(text) = text_on(self.evidence, number) {
            return Some(text);
        }
        text_on(self.runs, number)
    }

    /// Tests that a word is the first word of a command.
    pub fn is_command(&self, word: &str) -> bool
        ensures { result ≡ is_command self.now word.now }
    {
        text_on(self.commands, word).is_some()
    }

    /// The topic that the words request.
    fn requested_topic<'a>(&self, words: &'a [&'a str]) -> Option<&'a str>
        ensures { option_map (λ topic. topic.now) result ≡ requested_topic self.now words.now }
    {
        match words.first() {
            Some(first) => self.topic_after(first, &words[1..]),
            None => None,
        }
    }

    /// The topic that a first word and those after it request.
    fn topic_after<'a>(&self, first: &'a str, rest: &'a [&'a str]) -> Option<&'a str>
        ensures { option_map (λ topic. topic.now) result ≡ topic_after self.now first.now rest.now }
    {
        if first == "help" {
            return named_topic(rest);
        }
        if let Some(flag) = flag_in(first) {
            return Some(flag.topic("help"));
        }
        if !self.is_command(first) {
            return None;
        }
        match flag_among(rest) {
            Some(flag) => Some(flag.topic(first)),
            None => None,
        }
    }
}

/// The topic that the words after `help` name.
fn named_topic<'a>(words: &'a [&'a str]) -> Option<&'a str>
    ensures { option_map (λ topic. topic.now) result ≡ named_topic words.now }
{
    match (words.first(), words.get(1)) {
        (None, _) => Some("help"),
        (Some(word), None) => match flag_in(word) {
            Some(flag) => Some(flag.topic("help")),
            None => Some(word),
        },
        (Some(_), Some(_)) => None,
    }
}
