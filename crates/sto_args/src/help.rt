//! The pages of help, and the words that ask for one.
ghost use Rattle.std.specs.Prelude.{◌≡◌, map, string_bytes};
ghost use Rattle.sto_args.specs.HelpPages.{page_named, page_of};

/// A page of help: that of the program, or that of one of its commands.
#[derive(Clone, Copy, PartialEq, Eq, Debug)]
pub enum HelpPage {
    Program,
    Run,
    Step,
    Trace,
    Draw,
    Explore,
    Schedules,
    Upgrade,
    Gen,
    Bench,
}

/// The page of the command that a word names.
fn page_named(word: &str) -> Option<HelpPage>
    ensures { result ≡ page_named word.now }
{
    match word {
        "run" => Some(HelpPage::Run),
        "step" => Some(HelpPage::Step),
        "trace" => Some(HelpPage::Trace),
        "draw" => Some(HelpPage::Draw),
        "explore" => Some(HelpPage::Explore),
        "schedules" => Some(HelpPage::Schedules),
        "upgrade" => Some(HelpPage::Upgrade),
        "gen" => Some(HelpPage::Gen),
        "bench" => Some(HelpPage::Bench),
        _ => None,
    }
}

/// The page that the words after `--help` ask for: that of the program where there are none, and else that of the one command that they
/// name.
pub(crate) fn page_of(words: &[String]) -> Option<HelpPage>
    ensures { result ≡ page_of (map (λ word. string_bytes word) words.now) }
{
    match words {
        [] => Some(HelpPage::Program),
        [word] => page_named(word.as_str()),
        _ => None,
    }
}
