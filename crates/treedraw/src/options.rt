//! What the arguments of the program request.

/// Of which trees pictures are drawn, and how.
#[derive(Clone, Copy)]
pub struct Options {
    /// `--svg`: as SVG, and not as DOT.
    pub is_svg: bool,
    /// `--every`: a picture after each line, and not only after the last.
    pub is_every: bool,
    /// `--small`: of an index with up to seven pairs a leaf.
    pub is_small: bool,
}

/// Returns what the arguments request, or `None` if one of them is not an option.
pub fn options_of(arguments: &[String]) -> Option<Options> {
    let mut options = Options {
        is_svg: false,
        is_every: false,
        is_small: false,
    };
    for word in arguments {
        if word.as_str() == "--svg" {
            options.is_svg = true;
        } else if word.as_str() == "--every" {
            options.is_every = true;
        } else if word.as_str() == "--small" {
            options.is_small = true;
        } else {
            return None;
        }
    }
    Some(options)
}
