//! Accessors and asserts of an object's header.
ghost use Rattle.std.specs.Prelude.{◌≡◌, ◌≢◌, ◌↔◌, false, true, IsTrue, MatchResult, Some};
ghost use Rattle.der_base.specs.Header.{class_of, is_constructed, number_of, length_of};
ghost use Rattle.der_base.specs.Refusal.{refusal, construct_expected, construct_unexpected};
ghost use Rattle.der_base.specs.Refusal.{unexpected_class, unexpected_tag};

use crate::object::BerObject;
use der_base::error::BerError;
use der_base::header::{Class, Length, Tag};

impl BerObject<'_> {
    /// The class.
    pub fn class(&self) -> Class
        ensures { result ≡ class_of self.now.header }
    {
        self.header.class()
    }

    /// The tag number.
    pub fn tag(&self) -> Tag
        ensures { result.0 ≡ number_of self.now.header }
    {
        self.header.tag()
    }

    /// The length.
    pub fn length(&self) -> Length
        ensures { result ≡ length_of self.now.header }
    {
        self.header.length()
    }

    /// Whether the class is Universal.
    pub fn is_universal(&self) -> bool
        ensures { IsTrue result ↔ (class_of self.now.header ≡ Class.Universal) }
    {
        self.header.is_universal()
    }

    /// Whether the class is Application.
    pub fn is_application(&self) -> bool
        ensures { IsTrue result ↔ (class_of self.now.header ≡ Class.Application) }
    {
        self.header.is_application()
    }

    /// Whether the class is Context-specific.
    pub fn is_contextspecific(&self) -> bool
        ensures { IsTrue result ↔ (class_of self.now.header ≡ Class.ContextSpecific) }
    {
        self.header.is_contextspecific()
    }

    /// Whether the class is Private.
    pub fn is_private(&self) -> bool
        ensures { IsTrue result ↔ (class_of self.now.header ≡ Class.Private) }
    {
        self.header.is_private()
    }

    /// Whether the content is a value rather than elements.
    pub fn is_primitive(&self) -> bool
        ensures { IsTrue result ↔ (is_constructed self.now.header ≡ false) }
    {
        self.header.is_primitive()
    }

    /// Whether the content is elements.
    pub fn is_constructed(&self) -> bool
        ensures { IsTrue result ↔ (is_constructed self.now.header ≡ true) }
    {
        self.header.is_constructed()
    }

    /// Ok if the class is this one, else UnexpectedClass.
    pub fn assert_class(&self, class: Class) -> Result<(), BerError>
        ensures { let c = class_of self.now.header in MatchResult result
            (λ _. c ≡ class)
            (λ e. (c ≢ class) × (refusal e ≡ unexpected_class (Some class) c)) }
    {
        self.header.assert_class(class)
    }

    /// Ok if the tag number is this one, else UnexpectedTag.
    pub fn assert_tag(&self, tag: Tag) -> Result<(), BerError>
        ensures { let n = number_of self.now.header in MatchResult result
            (λ _. n ≡ tag.0)
            (λ e. (n ≢ tag.0) × (refusal e ≡ unexpected_tag (Some tag.0) n)) }
    {
        self.header.assert_tag(tag)
    }

    /// Ok if the element is constructed, else ConstructExpected.
    pub fn assert_constructed(&self) -> Result<(), BerError>
        ensures { let p = is_constructed self.now.header in MatchResult result
            (λ _. p ≡ true)
            (λ e. (p ≡ false) × (refusal e ≡ construct_expected)) }
    {
        self.header.assert_constructed()
    }

    /// Ok if the element is primitive, else ConstructUnexpected.
    pub fn assert_primitive(&self) -> Result<(), BerError>
        ensures { let p = is_constructed self.now.header in MatchResult result
            (λ _. p ≡ false)
            (λ e. (p ≡ true) × (refusal e ≡ construct_unexpected)) }
    {
        self.header.assert_primitive()
    }
}
