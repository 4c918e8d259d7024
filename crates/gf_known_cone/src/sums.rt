//! Vectors that are the sum of two others: they are looked for by keys, each a linear form of its vector.
//!
//! Where there are few variables the form's weights are powers of two, the greatest first: the keys of vectors with small entries then
//! ascend as the vectors do, and nothing is sorted. Else the weights are random.
//!
//! What is found here is a guess; `checks` of `gf_cone` judges it.

ghost use Rattle.std.specs.Prelude.{◌<◌, ◌^◌, unsigned_abs, All};
ghost use Rattle.gf_cone.specs.Small.{IsSmall};

use gf_cone::Cone;
use gf_cone::narrow::low;
use gf_vec::IntVec;
use std::alloc::{AllocError, Global};

/// What the random weights are drawn from.
const SEED: u64 = 88172645463325252;

/// How many bits all entries of a vector have together in its key.
const BITS: u32 = 48;

/// How many variables are few.
const FEW: u32 = 16;

/// The next random number.
fn drawn(last: u64) -> u64 {
    last.wrapping_mul(6364136223846793005)
        .wrapping_add(1442695040888963407)
}

/// A random number's weight.
fn weight(number: u64) -> i64 {
    (number >> 32) as i64
}

/// So many random weights.
///
/// # Errors
/// Want of memory.
fn random_weights(alloc: Global, n: u32) -> Result<Vec<i64>, AllocError> {
    let mut all = Vec::with_capacity(alloc, n as usize)?;
    let mut number = SEED;
    for _ in 0..n {
        number = drawn(number);
        all.push(weight(number))?;
    }
    Ok(all)
}

/// So many weights: powers of two that descend to 1, where they are few.
///
/// # Errors
/// Want of memory.
fn weights(alloc: Global, n: u32) -> Result<Vec<i64>, AllocError> {
    if n == 0 || n > FEW {
        return random_weights(alloc, n);
    }
    let step = BITS / n;
    let mut all = Vec::with_capacity(alloc, n as usize)?;
    let mut shift = step.wrapping_mul(n);
    for _ in 0..n {
        shift = shift.wrapping_sub(step);
        all.push(1i64.wrapping_shl(shift))?;
    }
    Ok(all)
}

/// The key of a vector with entries below 2^31 in absolute value.
fn small_key(vector: &[i128], weights: &[i64]) -> i64
    requires { All (λ x. unsigned_abs x < 2 ^ 31) vector.now }
{
    let count = vector.len().min(weights.len());
    let mut key = 0i64;
    'entries: for i in 0..count {
        key = key.wrapping_add(low(vector[i]).wrapping_mul(weights[i]));
    }
    key
}

/// A normal's key.
fn normal_key(normal: &IntVec, weights: &[i64]) -> i64
    requires { IsSmall normal.now }
{
    small_key(normal.as_slice(), weights)
}

/// The key of a row of a region. Entries of more than 64 bits count as 0.
fn row_key(row: &[i128], weights: &[i64]) -> i64 {
    let mut key = 0i64;
    for (x, weight) in row.iter().zip(weights.iter()) {
        if let Ok(entry) = i64::try_from(*x) {
            key = key.wrapping_add(entry.wrapping_mul(*weight));
        }
    }
    key
}

/// The keys of the normals, behind which there is room for so many more.
///
/// # Errors
/// Want of memory.
fn normal_keys(
    alloc: Global,
    normals: &[IntVec],
    weights: &[i64],
    room: usize,
) -> Result<Vec<i64>, AllocError>
    requires { All IsSmall normals.now }
{
    let mut keys = Vec::with_capacity(alloc, normals.len().saturating_add(room))?;
    for k in 0..normals.len() {
        keys.push(normal_key(&normals[k], weights))?;
    }
    Ok(keys)
}

/// A vector's key, and its index.
pub(crate) type Keyed = (i64, usize);

/// The keys of a cone's vectors: by their indices, and in order.
#[derive(Drop)]
pub(crate) struct Keys {
    placed: Vec<i64>,
    ordered: Vec<Keyed>,
}

/// Keys with their indices: those of the first `count`, into which those from `units` on are merged, the last of them first, and then
/// the ones between.
///
/// # Errors
/// Want of memory.
fn merged(
    alloc: Global,
    placed: &[i64],
    count: usize,
    units: usize,
) -> Result<Vec<Keyed>, AllocError> {
    let mut ordered = Vec::with_capacity(alloc, placed.len())?;
    let mut end = placed.len();
    'keys: for (k, key) in placed.iter().enumerate() {
        if k >= units {
            break;
        }
        if k < count {
            'units: while end > units && placed[end - 1] < *key {
                end -= 1;
                ordered.push((placed[end], end))?;
            }
        }
        ordered.push((*key, k))?;
    }
    'rest: while end > units {
        end -= 1;
        ordered.push((placed[end], end))?;
    }
    Ok(ordered)
}

/// Whether keys ascend.
fn ascend(keys: &[i64]) -> bool {
    let mut last = i64::MIN;
    for key in keys {
        if *key < last {
            return false;
        }
        last = *key;
    }
    true
}

/// The keys of a cone's vectors. Those of the unit vectors, which are the last, are the weights.
///
/// # Errors
/// Want of memory.
pub(crate) fn keys_of(alloc: Global, cone: &Cone) -> Result<Keys, AllocError> {
    let weights = weights(alloc, cone.variables())?;
    let beside = cone.rows().len().saturating_add(weights.len());
    let mut placed = normal_keys(alloc, cone.normals(), weights.as_slice(), beside)?;
    let count = placed.len();
    let are_merged = cone.variables() <= FEW && cone.rows().is_empty() && ascend(placed.as_slice());
    for row in cone.rows() {
        placed.push(row_key(row.as_slice(), weights.as_slice()))?;
    }
    let units = placed.len();
    for weight in &weights {
        placed.push(*weight)?;
    }
    let mut ordered = merged(alloc, placed.as_slice(), count, units)?;
    if !are_merged {
        ordered.as_mut_slice().sort_unstable();
    }
    Ok(Keys { placed, ordered })
}

/// Two indices whose keys have the key of the vector at an index as their sum.
pub(crate) fn two_indices(all: &Keys, index: usize) -> Option<(usize, usize)> {
    let keys = all.ordered.as_slice();
    let target = *all.placed.get(index)?;
    if keys.len() < 2 {
        return None;
    }
    let mut low = 0;
    let mut high = keys.len() - 1;
    let (mut first, _) = keys[low];
    let (mut second, _) = keys[high];
    'indices: while low < high {
        let sum = first.wrapping_add(second);
        if sum < target {
            low += 1;
            first = keys[low].0;
        } else if sum > target {
            high -= 1;
            second = keys[high].0;
        } else {
            return Some((keys[low].1, keys[high].1));
        }
    }
    None
}
