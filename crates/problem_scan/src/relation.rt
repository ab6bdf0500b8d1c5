// What a relation byte says: "1 is ≤, 2 is <"; "Relation 3 shall mean =, 4 ≥".
ghost use Rattle.std.specs.Prelude.{◌≡◌};
ghost use Rattle.rules.specs.Problem.{is_relation, relation_of, is_equality};
ghost use Rattle.rules.specs.Readings.{is_strict, turns};

pub fn is_relation(code: u8) -> bool
    ensures { result ≡ is_relation code }
{
    1 <= code && code <= 4
}

pub fn is_equality(code: u8) -> bool
    ensures { result ≡ is_equality (relation_of code) }
{
    code == 3
}

pub fn is_strict(code: u8) -> bool
    ensures { result ≡ is_strict (relation_of code) }
{
    code == 2
}

// "A ≥ is read with all signs turned."; so is an = in the second reading of its clause.
pub fn turns(second: bool, code: u8) -> bool
    ensures { result ≡ turns second (relation_of code) }
{
    if code == 3 {
        return second;
    }
    code == 4
}
