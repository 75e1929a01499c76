//! JSON values of the information.

ghost use Rattle.std.specs.Prelude.{◌≡◌, ◌<◌, IfOk, map};
ghost use Rattle.serde_json.specs.View.{view};
ghost use Rattle.iiif_info.specs.Information.{strings, integers, scale_factors, tiles};

use iiif_pixel::NoMemory;
use serde_json::{Value, json};
use std::alloc::Global;

/// Makes an array of strings.
pub fn strings(alloc: Global, words: &[&str]) -> Result<Value, NoMemory>
    ensures { IfOk result (λ value. view value ≡ strings (map (λ word. word.now) words.now)) }
{
    let mut list = Vec::with_capacity(alloc, words.len())?;
    for word in words {
        list.push(Value::try_from_str(alloc, word)?)?;
    }
    Ok(Value::Array(list))
}

/// Makes an array of integers.
fn integers(alloc: Global, numbers: &[u64]) -> Result<Value, NoMemory>
    ensures { IfOk result (λ value. view value ≡ integers numbers.now) }
{
    let mut list = Vec::with_capacity(alloc, numbers.len())?;
    for number in numbers {
        list.push(Value::from(*number))?;
    }
    Ok(Value::Array(list))
}

/// Lists the scale factors of tiles of this edge: powers of two, up to the first at which one tile covers `side`.
fn scale_factors(alloc: Global, edge: u32, side: u32) -> Result<Vec<u64>, NoMemory>
    requires { 0 < edge }
    ensures { IfOk result (λ factors. factors.items ≡ scale_factors edge side) }
{
    let mut factors = Vec::new(alloc);
    let mut factor = 1u64;
    factors.push(factor)?;
    while u64::from(edge) * factor < u64::from(side) {
        factor *= 2;
        factors.push(factor)?;
    }
    Ok(factors)
}

/// Makes the description of the tiles of an image whose longer side is `side`.
#[tactic(auto, unfolding(crate::specs::Information::tiles))]
pub fn tiles(alloc: Global, edge: u32, side: u32) -> Result<Value, NoMemory>
    requires { 0 < edge }
    ensures { IfOk result (λ value. view value ≡ tiles edge side) }
{
    let factors = integers(alloc, &scale_factors(alloc, edge, side)?)?;
    json!(in alloc; [{"height": edge, "scaleFactors": factors, "width": edge}])
}
