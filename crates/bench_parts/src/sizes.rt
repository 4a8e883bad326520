//! The sizes that the program is asked for.
ghost use Rattle.std.specs.Prelude.{ℕ, IfSome, IfNone};
ghost use Rattle.bench_parts.specs.Sizes.{Spells};
ghost use Rattle.bench_parts.specs.declared.sizes.Sizes.{Sizes as Asked};

/// The sizes of a graph.
#[derive(Clone, Copy, Debug)]
pub struct Sizes {
    /// The number of nodes that it is to have.
    pub nodes: u32,
    /// The number of bytes that its byte array is to have.
    pub bytes: u32,
}

/// The number that a word spells; none exactly where it spells none below 2^32.
fn number_of(word: &str) -> Option<u32>
    ensures found { IfSome result (Spells word.now) }
    ensures none { IfNone result ((n : ℕ) → ¬ Spells word.now n) }
{
    match word.parse::<u32>() {
        Ok(number) => Some(number),
        Err(_error) => None,
    }
}

/// The sizes that a word of nodes and a word of bytes spell; none exactly where one spells none.
pub fn sizes_of(nodes: &str, bytes: &str) -> Option<Sizes>
    ensures found { IfSome result
        (λ sizes. Spells nodes.now sizes.nodes × Spells bytes.now sizes.bytes) }
    ensures none { IfNone result
        ((sizes : Asked) → ¬ (Spells nodes.now sizes.nodes × Spells bytes.now sizes.bytes)) }
{
    match number_of(nodes) {
        None => None,
        Some(nodes) => match number_of(bytes) {
            None => None,
            Some(bytes) => Some(Sizes { nodes, bytes }),
        },
    }
}
