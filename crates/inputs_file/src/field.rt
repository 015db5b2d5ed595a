//! The lines of a file.

ghost use Rattle.std.specs.Prelude.{◌≡◌};
ghost use Rattle.inputs_file.specs.Grammar.{start_of};

use std::fmt;

/// A kind of line, and the end of the file.
#[derive(Clone, Copy, Debug, PartialEq, Eq)]
pub enum Field {
    Head,
    Library,
    Host,
    Date,
    ViewsFrom,
    ViewsSha256,
    Views,
    Rounds,
    Step,
    Bound,
    OneAxis,
    MinCounted,
    BaseFx,
    BaseFy,
    BaseCx,
    BaseCy,
    CentreX,
    CentreY,
    TiltX,
    TiltY,
    SeedFx,
    SeedFy,
    SeedCx,
    SeedCy,
    SeedTiltX,
    SeedTiltY,
    Note,
    Sha256,
    End,
}

impl Field {
    /// How such a line begins: its name and a space.
    #[tactic(auto, unfolding(crate::specs::Grammar::start_of))]
    pub(crate) fn start(self) -> &'static str
        ensures { result.now ≡ start_of self }
    {
        match self {
            Field::Head => "jinnychair inputs ",
            Field::Library => "library ",
            Field::Host => "host ",
            Field::Date => "date ",
            Field::ViewsFrom => "views-from ",
            Field::ViewsSha256 => "views-sha256 ",
            Field::Views => "views ",
            Field::Rounds => "rounds ",
            Field::Step => "step ",
            Field::Bound => "bound ",
            Field::OneAxis => "one-axis ",
            Field::MinCounted => "min-counted ",
            Field::BaseFx => "base-fx ",
            Field::BaseFy => "base-fy ",
            Field::BaseCx => "base-cx ",
            Field::BaseCy => "base-cy ",
            Field::CentreX => "centre-x ",
            Field::CentreY => "centre-y ",
            Field::TiltX => "tilt-x ",
            Field::TiltY => "tilt-y ",
            Field::SeedFx => "seed-fx ",
            Field::SeedFy => "seed-fy ",
            Field::SeedCx => "seed-cx ",
            Field::SeedCy => "seed-cy ",
            Field::SeedTiltX => "seed-tilt-x ",
            Field::SeedTiltY => "seed-tilt-y ",
            Field::Note => "note ",
            Field::Sha256 => "sha256 ",
            Field::End => "",
        }
    }
}

/// What such a line says, for a reader of an error.
impl fmt::Display for Field {
    fn fmt<W: fmt::Write>(&self, f: &mut fmt::Formatter<W>) -> fmt::Result {
        let form = match self {
            Field::Head => return f.write_str("`jinnychair inputs 2`, or 1 where no host is named"),
            Field::End => return f.write_str("the end of the file"),
            Field::Library | Field::Date => "a text without control bytes",
            Field::Host => "the host's name, one word, and its version",
            Field::ViewsFrom => "`built-in`, or `file` and a name",
            Field::ViewsSha256 => "64 hexadecimal digits in lower case",
            Field::Views | Field::Rounds | Field::MinCounted => "a whole number",
            Field::OneAxis => "`yes` or `no`",
            Field::Note => "a name, one word, and a text",
            Field::Sha256 => "the checksum of the lines above, as 64 hexadecimal digits",
            _ => "16 hexadecimal digits and the same number in decimals",
        };
        write!(f, "`{}` and {}", self.start().trim_end(), form)
    }
}
