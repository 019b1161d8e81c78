/// Why images are not loaded.
#[derive(Clone, Copy, Debug, PartialEq, Eq)]
pub enum LoadRule {
    /// The runtime image does not export an import.
    B1,
}
