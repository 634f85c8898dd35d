//! Whether outputs hold a refusal.

ghost use Rattle.std.specs.Prelude.{◌≡◌};
ghost use Rattle.token_cli.specs.Headline.{is_refusal, is_refused};

use tk_io::Outputs;

// Whether the path is that of a refusal.
fn is_refusal(path: &str) -> bool
    ensures { result ≡ is_refusal path.now }
{
    if path == "REFUSED" {
        return true;
    }
    path.ends_with("/REFUSED")
}

/// Whether a refusal is held: of the configuration or the plan, or of a permutation.
pub fn is_refused(held: &Outputs) -> bool
    ensures { result ≡ is_refused held.now }
{
    for (path, _) in held.entries() {
        if is_refusal(path.as_str()) {
            return true;
        }
    }
    false
}
