//! What to install if a font is not there.
ghost use Rattle.std.specs.Prelude.{◌≡◌};
ghost use Rattle.fx_words.specs.Parts.{text_in};
ghost use Rattle.fx_front.specs.Kinds.{package_of};

use crate::kinds::kind_among;

/// Folders of fonts, and what to do if a file below one is not there. The first row that fits counts.
const PACKAGES: [(&[u8], &str); 5] = [
    (
        b"/usr/share/fonts/truetype/dejavu/",
        "on Debian and Ubuntu 'sudo apt install fonts-dejavu-core' installs it",
    ),
    (
        b"/usr/share/fonts/truetype/freefont/",
        "on Debian and Ubuntu 'sudo apt install fonts-freefont-ttf' installs it",
    ),
    (
        b"/usr/share/fonts/truetype/liberation/",
        "on Debian and Ubuntu 'sudo apt install fonts-liberation' installs it",
    ),
    (
        b"/usr/share/fonts/truetype/noto/",
        "on Debian and Ubuntu 'sudo apt install fonts-noto-core' installs it",
    ),
    (
        b"/usr/share/fonts/",
        "install the font's package, or name another file: 'fc-list' shows the files of the installed fonts",
    ),
];

/// What to do if a font of this name is not there.
#[tactic(auto, unfolding(crate::specs::Kinds::package_of))]
pub(crate) fn package_of(name: &str) -> Option<&'static str>
    ensures { text_in result ≡ package_of name.now }
{
    kind_among(&PACKAGES, name.as_bytes())
}
