//! What a file of inputs says.

/// The program that worked out cameras and rows for a search.
#[derive(Debug, Drop)]
pub struct HostVersion {
    pub name: String,
    pub version: String,
}

/// A file of views.
#[derive(Debug, Drop)]
pub struct ViewsFile {
    /// Its name, as it was typed.
    pub name: String,
    /// Its SHA-256, as 64 hexadecimal digits.
    pub sha256: String,
}

/// Which tilts are tried, but for the tilts themselves.
#[derive(Clone, Copy, Debug)]
pub struct Options {
    pub rounds: u64,
    pub step: f64,
    pub bound: f64,
    pub one_axis: bool,
    pub min_counted: u64,
}

/// The camera of the grid's seeds.
#[derive(Clone, Copy, Debug)]
pub struct Camera {
    pub fx: f64,
    pub fy: f64,
    pub cx: f64,
    pub cy: f64,
}

/// The observed centre.
#[derive(Clone, Copy, Debug)]
pub struct Centre {
    pub x: f64,
    pub y: f64,
}

/// A decomposition seed.
#[derive(Clone, Copy, Debug)]
pub struct Seed {
    pub fx: f64,
    pub fy: f64,
    pub cx: f64,
    pub cy: f64,
    pub tilt_x: f64,
    pub tilt_y: f64,
}

/// What the host wants to find again.
#[derive(Debug, Drop)]
pub struct Note {
    pub name: String,
    pub text: String,
}

/// All that a search started from, and who started it.
#[derive(Debug, Drop)]
pub struct StoredInputs {
    /// The library's version.
    pub library: String,
    /// The host, if it is named.
    pub host: Option<HostVersion>,
    /// The date, as the host writes it.
    pub date: String,
    /// The file that the views come from, unless the host has them itself.
    pub views_file: Option<ViewsFile>,
    /// How many views there are.
    pub views: u64,
    pub options: Options,
    pub base: Camera,
    pub centre: Centre,
    /// The grid's tilts about x.
    pub tilt_x: Vec<f64>,
    /// The grid's tilts about y.
    pub tilt_y: Vec<f64>,
    pub seeds: Vec<Seed>,
    pub notes: Vec<Note>,
}
