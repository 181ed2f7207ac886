//! The folder part of a path: everything up to its last slash.

/// Returns the folder of the file at a path: the path up to and including its last slash, or an
/// empty string if the path has no slash.
pub fn folder_of(path: &str) -> &str {
    match path.rfind('/') {
        Some(slash) => &path[..=slash],
        None => "",
    }
}
