//! The gates of a circuit, and the wires of a gate.

/// A gate, with the numbers of the values that it takes.
///
/// `And` is the product of two shared bits, and `Ref` gives a shared bit fresh shares: these two draw random bits
/// (Ishai, Sahai and Wagner 2003; Barthe and others 2016).
#[derive(Clone, Copy, Debug, PartialEq, Eq)]
pub enum Gate {
    /// The bit 0.
    Zero,
    /// The bit 1.
    One,
    /// The XOR of two values.
    Xor(u32, u32),
    /// The NOT of a value.
    Not(u32),
    /// The product of two values.
    And(u32, u32),
    /// The same value under fresh shares.
    Ref(u32),
}

/// A wire of a gate, named by what it carries. a and b are the operands' shares, numbered from 0; r_ij is, for i below j, the
/// fresh bit of the pair (i, j) and, for i above j, the last wire of the pair (j, i); + is XOR and · is AND.
#[derive(Clone, Copy, Debug, PartialEq, Eq)]
pub enum Wire {
    /// Output share i, whichever wire carries it.
    Share(u8),
    /// a_i · b_j.
    Product(u8, u8),
    /// r_ij, the fresh bit of the pair (i, j).
    Fresh(u8, u8),
    /// v_ij = r_ij + a_i · b_j.
    Left(u8, u8),
    /// r_ji = v_ij + a_j · b_i.
    Right(u8, u8),
    /// Row i of a product summed up to column k; in a refresh, share i after its update with share k.
    Partial(u8, u8),
}

// An `ArrayVec` fills its free places with it.
impl Default for Wire {
    ghost use Rattle.std.specs.Prelude.{◌≡◌};
    ghost use Rattle.mask_circuit.specs.declared.gates.Wire.TheVariants.{Share};

    ghost is_default = { λ wire. wire ≡ Share 0 };

    fn default() -> Wire {
        Wire::Share(0)
    }
}
