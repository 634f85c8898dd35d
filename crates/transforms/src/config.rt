//! The configuration.

ghost use Rattle.std.specs.Prelude.{◌≡◌, ◌≢◌, true, false, Ok, Err, Some, None, IfOk, IfErr, IfSome};
ghost use Rattle.std.specs.Prelude.{option_map};
ghost use Rattle.std.specs.List.{list_all};
ghost use Rattle.std.specs.Char.{is_ascii_alphanumeric};
ghost use Rattle.std.specs.Str.{bytes_eq};
ghost use Rattle.toml.specs.Data.{get_member};
ghost use Rattle.toml.specs.Parse.{parse_document};
ghost use Rattle.toml.specs.View.{view, table_view};
ghost use Rattle.transforms.specs.inner.Unread.{IsUnread};
ghost use Rattle.transforms.specs.Config.{is_prefix, plain, prefix_in, base_in, is_setting};
ghost use Rattle.transforms.specs.Config.{boolean_under, first_refused, settings_in, config_of};
ghost use Rattle.transforms.specs.Config.{IsFirstRefused, IsFaultOf, RefusesFirst};

use std::alloc::Global;
use std::fmt;
use std::marker::Model;
use tk_io::{Bytes, NoMemory};
use toml::{Table, Value};

/// How names and values are spelled. The prefix is empty, or an ASCII letter and at most 31 ASCII letters and digits.
#[derive(Debug, Drop)]
pub struct Config {
    /// What goes before the names of each path.
    pub prefix: Bytes,
    /// How many pixels a rem is.
    pub rem_base: u8,
    /// Whether a reference is spelled as one where the platform has references.
    pub references: bool,
    /// Whether lengths, times and colours may be texts, as `16px`, `200ms` and `#3366cc`.
    pub legacy: bool,
}

/// Why a text gives no configuration.
#[derive(Drop)]
pub enum ConfigFault {
    /// The text is no TOML.
    Toml,
    /// The first key in byte order that is none of the four, or has a value of another form.
    Key(Bytes),
    /// Memory ran out.
    NoMemory,
}

impl fmt::Debug for ConfigFault {
    fn fmt<W: fmt::Write>(&self, f: &mut fmt::Formatter<W>) -> fmt::Result {
        f.write_str("ConfigFault")
    }
}

/// Memory ran out.
impl From<NoMemory> for ConfigFault {
    ghost use Rattle.std.specs.Prelude.{◌≡◌};
    ghost use Rattle.transforms.specs.declared.config.ConfigFault.TheVariants as fault;

    ghost from_gives = { λ _ e. e ≡ fault.NoMemory };

    fn from(_: NoMemory) -> ConfigFault {
        ConfigFault::NoMemory
    }
}

impl Model for Config {
    ghost use Rattle.std.specs.Prelude.{◌≡◌, true};
    ghost use Rattle.transforms.specs.Config.{Settings, is_prefix};

    ghost Value = { Settings };

    ghost view = { λ c. record {
      prefix = c.prefix;
      rem_base = c.rem_base;
      references = c.references;
      legacy = c.legacy;
    } };

    ghost invariant = { λ c. is_prefix c.prefix ≡ true };
}

impl Config {
    /// The defaults: no prefix, a rem of 16 pixels, references spelled as such, and no text in place of a length, a time or
    /// a colour.
    pub fn plain(alloc: Global) -> Config
        ensures { result ≡ plain }
    {
        Config {
            prefix: Bytes::new(alloc),
            rem_base: 16,
            references: true,
            legacy: false,
        }
    }

    /// The same configuration.
    pub fn copy(&self, alloc: Global) -> Result<Config, NoMemory>
        ensures { IfOk result (λ config. config ≡ self.now) }
    {
        let mut prefix = Bytes::new(alloc);
        prefix.append(self.prefix.as_slice())?;
        Ok(Config {
            prefix,
            rem_base: self.rem_base,
            references: self.references,
            legacy: self.legacy,
        })
    }

    /// Whether both say the same.
    pub fn is_same(&self, other: &Config) -> bool
        ensures same { result ≡ true → self.now ≡ other.now }
        ensures other { result ≡ false → self.now ≢ other.now }
    {
        self.rem_base == other.rem_base
            && self.references == other.references
            && self.legacy == other.legacy
            && self.prefix.as_slice() == other.prefix.as_slice()
    }
}

fn are_letters_and_digits(text: &[u8]) -> bool
    ensures { result ≡ list_all is_ascii_alphanumeric text.now }
{
    text.iter().all(|byte| byte.is_ascii_alphanumeric())
}

fn is_prefix(text: &[u8]) -> bool
    ensures { result ≡ is_prefix text.now }
{
    let Some((first, rest)) = text.split_first() else {
        return true;
    };
    first.is_ascii_alphabetic() && are_letters_and_digits(rest) && rest.len() <= 31
}

/// The prefix that a value says, where it has the form of one.
fn prefix_in(value: &Value) -> Option<&str>
    ensures says { option_map (λ text. text.now) result ≡ prefix_in (view value.now) }
    ensures form { IfSome result (λ text. is_prefix text.now ≡ true) }
{
    let text = value.as_str()?;
    if is_prefix(text.as_bytes()) {
        Some(text)
    } else {
        None
    }
}

/// The pixels of a rem that a value says: 1 to 100.
fn base_in(value: &Value) -> Option<u8>
    ensures { result ≡ base_in (view value.now) }
{
    let n = value.as_integer()?;
    if 1 <= n && n <= 100 {
        Some(n as u8)
    } else {
        None
    }
}

// Whether a key is this word.
fn is(key: &str, word: &str) -> bool
    ensures { result ≡ bytes_eq key.now word.now }
{
    key == word
}

/// Whether there is such a key and it may have the value.
fn is_setting(key: &str, value: &Value) -> bool
    ensures { result ≡ is_setting key.now (view value.now) }
{
    if is(key, "prefix") {
        return prefix_in(value).is_some();
    }
    if is(key, "rem_base") {
        return base_in(value).is_some();
    }
    if is(key, "references") {
        return value.as_bool().is_some();
    }
    if is(key, "legacy") {
        return value.as_bool().is_some();
    }
    false
}

// The first key, in byte order, that is not known or has a value that it can't have.
fn first_refused(table: &Table) -> Option<&str>
    ensures is { option_map (λ key. key.now) result ≡ first_refused (table_view table.now) }
    ensures first { IfSome result (λ key. IsFirstRefused (table_view table.now) key.now) }
{
    for (key, value) in table.iter() {
        if !is_setting(key.as_str(), value) {
            return Some(key.as_str());
        }
    }
    None
}

fn value_under<'t>(table: &'t Table, key: &str) -> Option<&'t Value>
    ensures { option_map (λ value. view value.now) result
        ≡ get_member key.now (table_view table.now) }
{
    table.get(key)
}

fn prefix_under(alloc: Global, table: &Table) -> Result<Bytes, NoMemory>
    ensures is { IfOk result (λ prefix. prefix ≡ (settings_in (table_view table.now)).prefix) }
    ensures form { IfOk result (λ prefix. is_prefix prefix ≡ true) }
{
    let mut prefix = Bytes::new(alloc);
    let Some(value) = value_under(table, "prefix") else {
        return Ok(prefix);
    };
    let Some(text) = prefix_in(value) else {
        return Ok(prefix);
    };
    prefix.append(text.as_bytes())?;
    Ok(prefix)
}

fn base_under(table: &Table) -> u8
    ensures { result ≡ (settings_in (table_view table.now)).rem_base }
{
    let Some(value) = value_under(table, "rem_base") else {
        return 16;
    };
    base_in(value).unwrap_or(16)
}

fn boolean_under(table: &Table, key: &str, default: bool) -> bool
    ensures { result ≡ boolean_under key.now default (table_view table.now) }
{
    let Some(value) = value_under(table, key) else {
        return default;
    };
    value.as_bool().unwrap_or(default)
}

// The settings of a table in which no key is refused.
fn settings_in(alloc: Global, table: &Table) -> Result<Config, NoMemory>
    ensures { IfOk result (λ config. config ≡ settings_in (table_view table.now)) }
{
    let prefix = prefix_under(alloc, table)?;
    Ok(Config {
        prefix,
        rem_base: base_under(table),
        references: boolean_under(table, "references", true),
        legacy: boolean_under(table, "legacy", false),
    })
}

fn table_of(alloc: Global, text: &str) -> Result<Table, ConfigFault>
    ensures read { IfOk result (λ table. parse_document text.now ≡ Some (table_view table)) }
    ensures refused { IfErr result (IsUnread text.now) }
{
    match toml::table_from_str(alloc, text) {
        Ok(table) => Ok(table),
        Err(fault) => {
            if fault.is_memory() {
                return Err(ConfigFault::NoMemory);
            }
            Err(ConfigFault::Toml)
        }
    }
}

/// The configuration that the text says in TOML. Its keys are `prefix` (empty, or an ASCII letter and at most 31 ASCII
/// letters and digits), `rem_base` (1 to 100), `references` and `legacy` (booleans); what is not given is as in
/// `Config::plain`.
pub fn read_config(alloc: Global, text: &str) -> Result<Config, ConfigFault>
    ensures ok { IfOk result (λ config. config_of text.now ≡ Ok config) }
    ensures refused { IfErr result (IsFaultOf text.now) }
    // The key of a refusal is the first refused key in byte order.
    ensures first { IfErr result (RefusesFirst text.now) }
{
    let table = table_of(alloc, text)?;
    if let Some(key) = first_refused(&table) {
        let mut name = Bytes::new(alloc);
        name.append(key.as_bytes())?;
        return Err(ConfigFault::Key(name));
    }
    let config = settings_in(alloc, &table)?;
    Ok(config)
}
