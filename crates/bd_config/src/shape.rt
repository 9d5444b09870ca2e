//! The shape of a configuration: its subsystems, and the calls of those that are block devices.
ghost use Rattle.std.specs.Prelude.{◌≡◌, map, option_map, codes};
ghost use Rattle.std.specs.List.{list_all};
ghost use Rattle.serde_json.specs.Find.{get};
ghost use Rattle.serde_json.specs.View.{view};
ghost use Rattle.bd_config.specs.Shape.{text_of, elements, is_call, config_from, calls_from, calls_in, calls_or_empty, subsystems_of};

use serde_json::Value;

/// The elements of an array; none of a value that is no array.
fn elements(v: &Value) -> Option<&[Value]>
    ensures { option_map (λ items. map view items.now) result ≡ elements (view v.now) }
{
    Some(v.as_array()?.as_slice())
}

/// The text under a key.
pub(crate) fn text_of<'a>(v: &'a Value, key: &str) -> Option<&'a str>
    ensures { option_map (λ text. text.now) result ≡ text_of key.now (view v.now) }
{
    v.get(key)?.as_str()
}

// Whether a value has a text `method`, and `params` that are an object or absent.
fn is_call(v: &Value) -> bool
    ensures { result ≡ is_call (view v.now) }
{
    text_of(v, "method").is_some()
        && match v.get("params") {
            Some(params) => params.is_object(),
            None => true,
        }
}

fn are_calls(items: &[Value]) -> bool
    ensures { result ≡ list_all is_call (map view items.now) }
{
    for item in items {
        if !is_call(item) {
            return false;
        }
    }
    true
}

// The elements of `config`, which is an array, null or absent.
fn config(v: &Value) -> Option<&[Value]>
    ensures { option_map (λ items. map view items.now) result
        ≡ config_from (get (codes "config") (view v.now)) }
{
    let Some(config) = v.get("config") else {
        return Some(&[]);
    };
    if config.is_null() {
        Some(&[])
    } else {
        elements(config)
    }
}

/// The calls of a subsystem; none where the value is no subsystem. Only the subsystem `bdev` has
/// calls that are read.
pub(crate) fn calls_in(v: &Value) -> Option<&[Value]>
    ensures { option_map (λ calls. map view calls.now) result ≡ calls_in (view v.now) }
{
    let name = text_of(v, "subsystem")?;
    let config = config(v)?;
    if name != "bdev" {
        Some(&[])
    } else if are_calls(config) {
        Some(config)
    } else {
        None
    }
}

/// The calls of a subsystem.
pub(crate) fn calls_or_empty(v: &Value) -> &[Value]
    ensures { map view result.now ≡ calls_or_empty (calls_in (view v.now)) }
{
    match calls_in(v) {
        Some(calls) => calls,
        None => &[],
    }
}

/// The subsystems of a configuration.
pub(crate) fn subsystems_of(v: &Value) -> Option<&[Value]>
    ensures { option_map (λ items. map view items.now) result ≡ subsystems_of (view v.now) }
{
    elements(v.get("subsystems")?)
}
