// Pages, each by its topic.

ghost use Rattle.std.specs.Prelude.{◌≡◌};
ghost use Rattle.std.specs.Option.{option_map};
ghost use Rattle.p3l_help.specs.Page.{text_among};

/// A text, and the word by which one requests it.
#[derive(Clone, Copy, Debug, Drop)]
pub struct Page {
    pub topic: &'static str,
    pub text: &'static str,
}

/// The text of the first of these pages that is on the topic.
pub(crate) fn text_on(pages: &[Page], topic: &str) -> Option<&'static str>
    ensures { option_map (λ text. text.now) result ≡ text_among pages.now topic.now }
{
    pages
        .iter()
        .find(|page| page.topic.as_bytes() == topic.as_bytes())
        .map(|page| page.text)
}
