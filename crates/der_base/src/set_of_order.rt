//! The order of the values of a SET OF (X.690 11.6).
ghost use Rattle.std.specs.Prelude.{◌↔◌, IsTrue};
ghost use Rattle.der_base.specs.SetOfOrder.{Descends};

/// Whether `first` is greater than `second`, octet by octet: DER rejects a SET OF with them in this order. Zeros are
/// appended to the shorter one (X.690 11.6).
#[inline]
pub fn descends(first: &[u8], second: &[u8]) -> bool
    ensures { IsTrue result ↔ Descends first.now second.now }
{
    for (i, octet) in first.iter().enumerate() {
        let other = second.get(i).copied().unwrap_or(0);
        if *octet != other {
            return *octet > other;
        }
    }
    false
}
