//! The parameters of a call, each in its form and range.
ghost use Rattle.std.specs.Prelude.{◌≡◌, ◌≤◌, ◌<◌, option_map, option_and_then, IfSome, codes, IsUtf8};
ghost use Rattle.std.specs.List.{list_all};
ghost use Rattle.serde_json.specs.View.{view};
ghost use Rattle.bd_config.specs.Commands.{param, text_from, whole, number_from, number_or, is_name_byte, is_device_name, name_from, filename_from, only_block_size, block_size_from, block_size_or, boundary_from, depth_from, latency_from};

use serde_json::Value;

/// The parameter of a call under a key.
pub(crate) fn param<'a>(call: &'a Value, key: &str) -> Option<&'a Value>
    ensures { option_map (λ p. view p.now) result ≡ param key.now (view call.now) }
{
    call.get("params")?.get(key)
}

pub(crate) fn text<'a>(call: &'a Value, key: &str) -> Option<&'a str>
    ensures { option_map (λ s. s.now) result ≡ text_from (param key.now (view call.now)) }
{
    param(call, key)?.as_str()
}

/// A whole number below 2^64.
pub(crate) fn whole(call: &Value, key: &str) -> Option<u64>
    ensures { result ≡ option_and_then whole (param key.now (view call.now)) }
{
    param(call, key)?.as_u64()
}

/// A whole number from low to high.
pub(crate) fn number(call: &Value, key: &str, low: u64, high: u64) -> Option<u64>
    ensures value { result ≡ number_from low high (param key.now (view call.now)) }
    ensures bound { IfSome result (λ n. n ≤ high) }
{
    let n = whole(call, key)?;
    if low <= n && n <= high { Some(n) } else { None }
}

/// The same; absent it is the default.
pub(crate) fn number_or(call: &Value, key: &str, default: u64, low: u64, high: u64) -> Option<u64>
    requires { default ≤ high }
    ensures value { result ≡ number_or default low high (param key.now (view call.now)) }
    ensures bound { IfSome result (λ n. n ≤ high) }
{
    if param(call, key).is_none() {
        Some(default)
    } else {
        number(call, key, low, high)
    }
}

fn are_name_bytes(name: &[u8]) -> bool
    ensures { result ≡ list_all is_name_byte name.now }
{
    name.iter().all(|b| 33 <= *b && *b <= 126)
}

fn is_device_name(name: &[u8]) -> bool
    ensures { result ≡ is_device_name name.now }
{
    1 <= name.len() && name.len() <= 200 && are_name_bytes(name)
}

/// The name of a device: 1 to 200 letters from `!` to `~`.
pub(crate) fn name<'a>(call: &'a Value, key: &str) -> Option<&'a [u8]>
    ensures { option_map (λ s. s.now) result ≡ name_from (param key.now (view call.now)) }
{
    let name = text(call, key)?.as_bytes();
    if is_device_name(name) {
        Some(name)
    } else {
        None
    }
}

/// The name of a file: a text of 1 to 4,096 bytes.
pub(crate) fn filename<'a>(call: &'a Value, key: &str) -> Option<&'a [u8]>
    ensures value { option_map (λ s. s.now) result ≡ filename_from (param key.now (view call.now)) }
    ensures utf8 { IfSome result (λ s. IsUtf8 s.now) }
{
    let name = text(call, key)?.as_bytes();
    if 1 <= name.len() && name.len() <= 4096 {
        Some(name)
    } else {
        None
    }
}

fn block_size_of(n: u64) -> Option<u32>
    ensures value { result ≡ only_block_size n }
    ensures some { IfSome result (λ n. 0 < n) }
{
    match n {
        512 => Some(512),
        4096 => Some(4096),
        _ => None,
    }
}

/// The size of a block: 512 or 4,096 bytes.
pub(crate) fn block_size(call: &Value) -> Option<u32>
    ensures value { result ≡ block_size_from (param (codes "block_size") (view call.now)) }
    ensures some { IfSome result (λ n. 0 < n) }
{
    block_size_of(whole(call, "block_size")?)
}

/// The same; absent it is 512.
pub(crate) fn block_size_or(call: &Value) -> Option<u32>
    ensures value { result ≡ block_size_or (param (codes "block_size") (view call.now)) }
    ensures some { IfSome result (λ n. 0 < n) }
{
    if param(call, "block_size").is_none() {
        Some(512)
    } else {
        block_size(call)
    }
}

/// The boundary at which requests are cut: 0 for none, else 8 blocks and more; absent it is 0.
pub(crate) fn boundary(call: &Value) -> Option<u64>
    ensures { result ≡ boundary_from (param (codes "optimal_io_boundary") (view call.now)) }
{
    let Some(boundary) = param(call, "optimal_io_boundary") else {
        return Some(0);
    };
    let n = boundary.as_u64()?;
    if n == 0 || 8 <= n { Some(n) } else { None }
}

/// The pieces in a device's queue: 1 to 1,024; absent it is 128.
pub(crate) fn depth(call: &Value) -> Option<u32>
    ensures { result ≡ depth_from (param (codes "queue_depth") (view call.now)) }
{
    Some(number_or(call, "queue_depth", 128, 1, 1024)? as u32)
}
