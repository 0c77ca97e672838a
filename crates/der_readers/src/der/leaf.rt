//! The content octets of the universal types other than SEQUENCE and SET, by DER (X.690 8.2 to 8.25, and 11).
ghost use Rattle.std.specs.Prelude.{◌≡◌, false, IsTrue, MatchResult};
ghost use Rattle.der_base.specs.Encoding.{content_octets};
ghost use Rattle.der_base.specs.Leaf.{is_list, is_mapped, IsDerLeaf};
ghost use Rattle.der_base.specs.LeafRefusal.{DerLeafRefuses};
ghost use Rattle.der_base.specs.Refusal.{refusal};
ghost use Rattle.der_object.specs.View.{content_tree};

use crate::ber::leaf::read_content;
use der_base::error::BerError;
use der_base::header::Tag;
use der_base::rules::Rules;
use der_object::BerObjectContent;

/// Reads the content octets of a universal type other than SEQUENCE and SET, which is primitive by DER.
#[inline(always)]
pub fn read_leaf<'a>(
    constructed: bool,
    tag: Tag,
    content: &'a [u8],
) -> Result<BerObjectContent<'a>, BerError>
    requires mapped { IsTrue (is_mapped tag.0) }
    requires no_list { is_list tag.0 ≡ false }
    ensures { MatchResult result
        (λ x. (constructed ≡ false) × IsDerLeaf tag.0 (content_tree x)
        × (content.now ≡ content_octets (content_tree x)))
        (λ e. DerLeafRefuses constructed tag.0 content.now (refusal e)) }
{
    read_content(Rules::Der, constructed, tag, content)
}
