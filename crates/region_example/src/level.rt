//! The levels of a log's lines.

ghost use Rattle.std.specs.Prelude.{◌≡◌};
ghost use Rattle.region_example.specs.Levels.{instance_of, level_of};

/// How grave a line of a log is. Each level is an instance of the region's domain.
#[derive(Clone, Copy, PartialEq, Eq)]
pub enum Level {
    Info,
    Warning,
    Error,
}

/// All levels, with the names of their instances.
pub const LEVELS: [(Level, &str); 3] = [
    (Level::Info, "info"),
    (Level::Warning, "warning"),
    (Level::Error, "error"),
];

impl Level {
    /// The level of a line: `Error` where it begins with `error`, `Warning` where it begins with `warning`, and else `Info`.
    pub fn of_line(line: &[u8]) -> Level
        ensures { result ≡ level_of line.now }
    {
        if line.starts_with(b"error") {
            return Level::Error;
        }
        if line.starts_with(b"warning") {
            return Level::Warning;
        }
        Level::Info
    }

    /// The number of the level's instance.
    pub fn instance(self) -> i32
        ensures { result ≡ instance_of self }
    {
        self as i32
    }
}
