//! The configuration of files.

ghost use Rattle.std.specs.Prelude.{◌≡◌, [], Some, Ok, Err, IfOk, IfErr, length, option_map};
ghost use Rattle.refusals.specs.Refusal.{file_text, report, report_text};
ghost use Rattle.token_cells.specs.Breaks.{verdict};
ghost use Rattle.build_plain.specs.Out.{settings_of, config_path, config_reports, refused_config};
ghost use Rattle.build_plain.specs.Out.{IsConfigFault};

use crate::output::one_output;
use file_plan::Files;
use refusals::{Rule, append_key, file_text, refuse};
use std::alloc::Global;
use tk_io::{Bytes, NoMemory, Outputs};
use transforms::{Config, ConfigFault, read_config};

const CONFIG: &str = "tokc.toml";

/// The configuration that `tokc.toml` says, or the defaults where it is not there.
///
/// # Errors
/// As [`read_config`] answers for its text.
pub fn config_of(alloc: Global, files: &Files<'_>) -> Result<Config, ConfigFault>
    ensures ok { IfOk result (λ cfg. settings_of files.now ≡ Ok cfg) }
    ensures refused { IfErr result (IsConfigFault files.now) }
{
    let Some(text) = files.get(CONFIG) else {
        return Ok(Config::plain(alloc));
    };
    read_config(alloc, text)
}

// What is printed of it, but for the key.
fn bare_text(alloc: Global, files: &Files<'_>, rule: Rule) -> Result<Bytes, NoMemory>
    ensures { IfOk result (λ b. b ≡ report_text files.now
        (report rule config_path 0 (length (file_text files.now config_path)) [])) }
{
    let end = file_text(files, CONFIG).len();
    refuse(alloc, files, rule, CONFIG, 0, end)
}

/// What is printed of a configuration that is refused, which is told at its whole text.
pub fn config_text(alloc: Global, files: &Files<'_>, fault: &ConfigFault) -> Result<Bytes, NoMemory>
    ensures { IfOk result (λ b. option_map (report_text files.now) (verdict (config_reports
        (length (file_text files.now config_path)) fault.now)) ≡ Some b) }
{
    match fault {
        ConfigFault::Toml => bare_text(alloc, files, Rule::ConfigToml),
        ConfigFault::Key(key) => {
            let mut text = bare_text(alloc, files, Rule::ConfigKey)?;
            append_key(&mut text, key.as_slice())?;
            Ok(text)
        }
        ConfigFault::NoMemory => Err(NoMemory),
    }
}

/// The one output of files whose configuration is refused.
pub fn refused_config(
    alloc: Global,
    files: &Files<'_>,
    fault: &ConfigFault,
) -> Result<Outputs, NoMemory>
    ensures { IfOk result (refused_config files.now
        (config_reports (length (file_text files.now config_path)) fault.now)) }
{
    let body = config_text(alloc, files, fault)?;
    one_output(alloc, "REFUSED", body)
}
