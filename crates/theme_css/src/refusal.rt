//! The first refusal among outputs.

ghost use Rattle.std.specs.Prelude.{◌≡◌, option_map};
ghost use Rattle.theme_css.specs.Themes.{first_refused, is_refusal};

use tk_io::Outputs;

// Whether the path is that of a refusal.
fn is_refusal(path: &str) -> bool
    ensures { result ≡ is_refusal path.now }
{
    if path == "REFUSED" {
        return true;
    }
    path.ends_with("/REFUSED")
}

/// The first path of a refusal in byte order.
pub(crate) fn first_refused(outputs: &Outputs) -> Option<&str>
    ensures { option_map (λ path. path.now) result ≡ first_refused outputs.now }
{
    for (path, _) in outputs.entries() {
        if is_refusal(path.as_str()) {
            return Some(path.as_str());
        }
    }
    None
}
