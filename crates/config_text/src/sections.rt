//! Sections and their names.

ghost use Rattle.std.specs.Prelude.{◌≡◌, ◌==◌};
ghost use Rattle.std.specs.List.{list_any};
ghost use Rattle.config_text.specs.Sections as spec;

/// A section.
#[derive(Clone, Copy, Debug, PartialEq, Eq)]
pub(crate) enum Section {
    Screens,
    Aliases,
    Links,
    Options,
}

/// An open section, with the place of the line that opened it.
#[derive(Clone, Copy, Debug)]
pub(crate) struct Opened {
    pub section: Section,
    pub line: u32,
    pub column: u32,
}

const SECTIONS: [Section; 4] = [
    Section::Screens,
    Section::Aliases,
    Section::Links,
    Section::Options,
];

impl Section {
    /// Its name.
    pub fn text(self) -> &'static [u8]
        ensures { result.now ≡ spec.section_text self }
    {
        match self {
            Section::Screens => b"screens",
            Section::Aliases => b"aliases",
            Section::Links => b"links",
            Section::Options => b"options",
        }
    }

    /// The section of that name. `None` if none has it.
    #[tactic(auto, unfolding(crate::specs::Sections::section_named))]
    pub fn named(text: &[u8]) -> Option<Section>
        ensures { result ≡ spec.section_named text.now }
    {
        SECTIONS
            .iter()
            .copied()
            .find(|section| section.text() == text)
    }
}

fn has_equals(bytes: &[u8]) -> bool
    ensures { result ≡ list_any (λ b. b == 61) bytes.now }
{
    bytes.iter().any(|byte| *byte == b'=')
}

/// Whether a line is a header: its last byte is `:` and it has no `=`.
#[tactic(auto, unfolding(crate::specs::Sections::is_header))]
pub(crate) fn is_header(bytes: &[u8]) -> bool
    ensures { result ≡ spec.is_header bytes.now }
{
    match bytes {
        [.., last] => {
            if *last != b':' {
                return false;
            }
            !has_equals(bytes)
        }
        [] => false,
    }
}
