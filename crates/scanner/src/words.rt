// Words compared.
ghost use Rattle.std.specs.Prelude.{◌≡◌};
ghost use Rattle.grammar.specs.Fields.{same_bytes_lem};

// Whether two runs of bytes are equal.
pub fn same(a: &[u8], b: &[u8]) -> bool
    ensures { result ≡ same_bytes_lem a.now b.now }
{
    a == b
}
