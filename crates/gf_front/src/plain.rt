//! The commands without options.
ghost use Rattle.std.specs.Prelude.{◌≡◌, map};
ghost use Rattle.gf_front.specs.Table.{plain_commands, plain_named};
ghost use Rattle.gf_front.specs.Choices.{as_named};

/// A command without options.
#[derive(Clone, Copy, Debug, PartialEq, Eq)]
pub enum PlainCommand {
    /// Whether a marked set is a Gröbner basis for its marking.
    IsMarkedGroebnerBasis,
    /// Whether the ideal of a marked basis contains each polynomial of a set.
    DoesIdealContain,
    /// A set with each polynomial marked at its greatest term by a vector.
    MarkPolynomialSet,
    /// The initial forms of a set by a vector.
    InitialForms,
    /// A set made homogeneous by a new variable.
    Homogenize,
    /// The union of a list of sets.
    PolynomialSetUnion,
    /// Numbers of a list of marked sets: how many, and how great they are.
    Stats,
    /// The space of the vectors by which each polynomial of a set is homogeneous, as a fan.
    HomogeneitySpace,
    /// The tropical hypersurface of a polynomial, as a fan.
    TropicalHypersurface,
    /// The fan of the Minkowski sum of the Newton polytopes of a set of polynomials.
    MinkowskiSum,
    /// The fan of a fan file, as a fan file of the latest version.
    MigrateFan,
}

/// Each command without options, with its name.
pub(crate) const PLAIN_COMMANDS: &[(&str, PlainCommand)] = &[
    (
        "_ismarkedgroebnerbasis",
        PlainCommand::IsMarkedGroebnerBasis,
    ),
    ("_doesidealcontain", PlainCommand::DoesIdealContain),
    ("_markpolynomialset", PlainCommand::MarkPolynomialSet),
    ("_initialforms", PlainCommand::InitialForms),
    ("_homogenize", PlainCommand::Homogenize),
    ("_polynomialsetunion", PlainCommand::PolynomialSetUnion),
    ("_stats", PlainCommand::Stats),
    ("_homogeneityspace", PlainCommand::HomogeneitySpace),
    ("_tropicalhypersurface", PlainCommand::TropicalHypersurface),
    ("_minkowskisum", PlainCommand::MinkowskiSum),
    ("_migratefan", PlainCommand::MigrateFan),
];

/// The first of these commands that has the name.
fn named(commands: &[(&str, PlainCommand)], name: &str) -> Option<PlainCommand>
    ensures { result ≡ plain_named name.now (map as_named commands.now) }
{
    for (known, command) in commands {
        if name == *known {
            return Some(*command);
        }
    }
    None
}

/// The command without options that has the name.
pub(crate) fn plain_command(name: &str) -> Option<PlainCommand>
    ensures { result ≡ plain_named name.now plain_commands }
{
    named(PLAIN_COMMANDS, name)
}
