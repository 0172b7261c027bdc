// The layers of a pile.
ghost use Rattle.std.specs.Prelude.{◌≡◌, ◌≤◌, if◌then◌else◌, length, None, Some, vec_items};
ghost use Rattle.std.specs.Prelude.{nat_lt, option_map, vec_len};

use bench_call::LayerKind;

/// The most layers that a pile has (docs/RULES.md, section 11).
pub const MOST_LAYERS: usize = 3;

/// The layers of a pile over paging, from the bottom up, none or as many as three
/// (docs/RULES.md, section 11).
#[derive(Debug, PartialEq, Eq, Drop)]
pub struct Layers {
    pub(crate) layers: Vec<LayerKind>,
    ghost few: { vec_len layers ≤ 3 },
}

impl Layers {
    /// These layers, from the bottom up; none where they are more than three
    /// (docs/RULES.md, section 11).
    pub fn new(layers: Vec<LayerKind>) -> Option<Layers>
        ensures { option_map (λ l. vec_items l.layers) result
            ≡ (if nat_lt 3 (vec_len layers) then None else Some (vec_items layers)) }
    {
        if layers.len() > MOST_LAYERS {
            return None;
        }
        Some(Layers { layers })
    }

    /// The layers from the bottom up (docs/RULES.md, section 11).
    pub fn as_slice(&self) -> &[LayerKind]
        ensures value { result.now ≡ vec_items self.now.layers }
        ensures few { length result.now ≤ 3 }
    {
        self.layers.as_slice()
    }
}
