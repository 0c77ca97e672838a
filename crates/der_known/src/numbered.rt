//! The types that other types refer to by number.
ghost use Rattle.der_known.specs.Tables.{HasKeys};
ghost use Rattle.der_schema.specs.Meaning.{all_types};

use crate::{
    algorithms, attribute_certificates, attributes, certificates, cms, extensions, kerberos, keys,
    ldap, names, ocsp, pkcs7, pkcs12, snmp, time_stamps,
};
use der_schema::schema::{Component, Type};

// Names and attributes.
pub(crate) const NAME: Type = Type::Numbered(0);

pub(crate) const GENERAL_NAME: Type = Type::Numbered(1);

// Algorithms.
pub(crate) const DIGEST_ALGORITHM: Type = Type::Numbered(2);

pub(crate) const ALGORITHM: Type = Type::Numbered(3);

pub(crate) const INNER_ALGORITHM: Type = Type::Numbered(4);

pub(crate) const CURVE: Type = Type::Numbered(5);

pub(crate) const PASSWORD_BASED: Type = Type::Numbered(6);

pub(crate) const KEY_DERIVATION: Type = Type::Numbered(7);

pub(crate) const GCM: Type = Type::Numbered(8);

pub(crate) const SIGNATURE_ALGORITHM: Type = Type::Numbered(9);

pub(crate) const SIGNATURE_NUMBERS: Type = Type::Numbered(10);

// Keys.
pub(crate) const SUBJECT_PUBLIC_KEY_INFO: Type = Type::Numbered(11);

pub(crate) const RSA_PUBLIC_KEY: Type = Type::Numbered(12);

pub(crate) const RSA_PRIVATE_KEY: Type = Type::Numbered(13);

pub(crate) const EC_PRIVATE_KEY: Type = Type::Numbered(14);

pub(crate) const PRIVATE_KEY_INFO: Type = Type::Numbered(15);

pub(crate) const ENCRYPTED_PRIVATE_KEY_INFO: Type = Type::Numbered(16);

// Extensions.
pub(crate) const EXTENSION: Type = Type::Numbered(17);

pub(crate) const DISTRIBUTION_POINTS: Type = Type::Numbered(18);

pub(crate) const BASIC_CONSTRAINTS: Type = Type::Numbered(19);

pub(crate) const AUTHORITY_KEY: Type = Type::Numbered(20);

pub(crate) const CERTIFICATE_POLICIES: Type = Type::Numbered(21);

pub(crate) const ACCESS_DESCRIPTIONS: Type = Type::Numbered(22);

pub(crate) const ISSUING_DISTRIBUTION_POINT: Type = Type::Numbered(23);

pub(crate) const NAME_CONSTRAINTS: Type = Type::Numbered(24);

// Attributes.
pub(crate) const ATTRIBUTE: Type = Type::Numbered(25);

pub(crate) const MESSAGE_ATTRIBUTE: Type = Type::Numbered(26);

pub(crate) const BAG_ATTRIBUTE: Type = Type::Numbered(27);

pub(crate) const SIGNING_CERTIFICATE: Type = Type::Numbered(28);

pub(crate) const SIGNING_CERTIFICATE_V2: Type = Type::Numbered(29);

pub(crate) const CAPABILITIES: Type = Type::Numbered(30);

// Certificates and requests.
pub(crate) const CERTIFICATE: Type = Type::Numbered(31);

pub(crate) const CERTIFICATE_LIST: Type = Type::Numbered(32);

pub(crate) const CERTIFICATION_REQUEST: Type = Type::Numbered(33);

// Attribute certificates.
pub(crate) const ATTRIBUTE_CERTIFICATE: Type = Type::Numbered(34);

pub(crate) const ATTRIBUTE_CERTIFICATE_INFO: Type = Type::Numbered(35);

pub(crate) const SERVICE_AUTHENTICATION: Type = Type::Numbered(36);

pub(crate) const IETF_ATTRIBUTE: Type = Type::Numbered(37);

// Messages of CMS.
pub(crate) const CONTENT_INFO: Type = Type::Numbered(38);

pub(crate) const SIGNED_DATA: Type = Type::Numbered(39);

pub(crate) const ENVELOPED_DATA: Type = Type::Numbered(40);

pub(crate) const ENCRYPTED_DATA: Type = Type::Numbered(41);

pub(crate) const AUTHENTICATED_DATA: Type = Type::Numbered(42);

pub(crate) const AUTH_ENVELOPED_DATA: Type = Type::Numbered(43);

pub(crate) const SIGNER_INFO: Type = Type::Numbered(44);

pub(crate) const CERTIFICATE_CHOICE: Type = Type::Numbered(45);

pub(crate) const REVOCATION_CHOICE: Type = Type::Numbered(46);

pub(crate) const ENCAPSULATED_CONTENT: Type = Type::Numbered(47);

pub(crate) const RECIPIENT: Type = Type::Numbered(48);

// Messages of PKCS #7 alone.
pub(crate) const SIGNED_AND_ENVELOPED_DATA: Type = Type::Numbered(49);

// Time stamps.
pub(crate) const TIME_STAMP_REQUEST: Type = Type::Numbered(50);

pub(crate) const TIME_STAMP_RESPONSE: Type = Type::Numbered(51);

pub(crate) const TIME_STAMP_INFO: Type = Type::Numbered(52);

// PKCS #12.
pub(crate) const PFX: Type = Type::Numbered(53);

pub(crate) const AUTHENTICATED_SAFE: Type = Type::Numbered(54);

pub(crate) const SAFE_CONTENTS: Type = Type::Numbered(55);

// OCSP.
pub(crate) const OCSP_REQUEST: Type = Type::Numbered(56);

pub(crate) const OCSP_RESPONSE: Type = Type::Numbered(57);

// SNMP.
pub(crate) const SNMP_MESSAGE: Type = Type::Numbered(58);

pub(crate) const SNMP_V3_MESSAGE: Type = Type::Numbered(59);

pub(crate) const PDUS: Type = Type::Numbered(60);

pub(crate) const VAR_BIND: Type = Type::Numbered(61);

// LDAP.
pub(crate) const LDAP_MESSAGE: Type = Type::Numbered(62);

pub(crate) const FILTER: Type = Type::Numbered(63);

// Kerberos.
pub(crate) const AS_REQUEST: Type = Type::Numbered(64);

pub(crate) const AS_REPLY: Type = Type::Numbered(65);

pub(crate) const TGS_REQUEST: Type = Type::Numbered(66);

pub(crate) const TGS_REPLY: Type = Type::Numbered(67);

pub(crate) const KDC_REQUEST: Type = Type::Numbered(68);

pub(crate) const KDC_REPLY: Type = Type::Numbered(69);

pub(crate) const TICKET: Type = Type::Numbered(70);

pub(crate) const AP_REQUEST: Type = Type::Numbered(71);

pub(crate) const AP_REPLY: Type = Type::Numbered(72);

pub(crate) const KRB_SAFE: Type = Type::Numbered(73);

pub(crate) const KRB_PRIVATE: Type = Type::Numbered(74);

pub(crate) const KRB_CREDENTIALS: Type = Type::Numbered(75);

pub(crate) const KRB_ERROR: Type = Type::Numbered(76);

pub(crate) const ENCRYPTED: Type = Type::Numbered(77);

pub(crate) const PRINCIPAL: Type = Type::Numbered(78);

pub(crate) const HOST_ADDRESS: Type = Type::Numbered(79);

pub(crate) const TICKET_ALONE: Type = Type::Numbered(80);

// LDAP's operations.
pub(crate) const LDAP_RESULT_CODE: Type = Type::Numbered(81);

pub(crate) const MATCHED_NAME: Type = Type::Numbered(82);

pub(crate) const DIAGNOSTIC_MESSAGE: Type = Type::Numbered(83);

pub(crate) const REFERRAL: Type = Type::Numbered(84);

pub(crate) const PARTIAL_ATTRIBUTE: Type = Type::Numbered(85);

pub(crate) const LDAP_OPERATION: Type = Type::Numbered(86);

pub(crate) const LDAP_NAME: Type = Type::Numbered(87);

pub(crate) const SCOPE: Type = Type::Numbered(88);

pub(crate) const DEREFERENCING: Type = Type::Numbered(89);

pub(crate) const CHANGE: Type = Type::Numbered(90);

pub(crate) const LDAP_IDENTIFIER: Type = Type::Numbered(91);

pub(crate) const NEW_NAME: Type = Type::Numbered(92);

pub(crate) const NEW_SUPERIOR: Type = Type::Numbered(93);

pub(crate) const MECHANISM: Type = Type::Numbered(94);

pub(crate) const SELECTOR: Type = Type::Numbered(95);

pub(crate) const AUTHENTICATION: Type = Type::Numbered(96);

pub(crate) const SIZE_LIMIT: Type = Type::Numbered(97);

pub(crate) const TIME_LIMIT: Type = Type::Numbered(98);

pub(crate) const TYPES_ONLY: Type = Type::Numbered(99);

pub(crate) const LDAP_ASSERTION: Type = Type::Numbered(100);

pub(crate) const DELETES_OLD_NAME: Type = Type::Numbered(101);

pub(crate) const CHANGED: Type = Type::Numbered(102);

/// The number of types.
pub(crate) const COUNT: usize = 103;

/// The types, each at its number.
pub(crate) fn types() -> [&'static Component; COUNT]
    ensures { HasKeys 13 (all_types result) }
{
    let [name, general_name] = names::types();
    let [
        digest_algorithm,
        algorithm,
        inner_algorithm,
        curve,
        password_based,
        key_derivation,
        gcm,
        signature_algorithm,
        signature_numbers,
    ] = algorithms::types();
    let [
        subject_public_key_info,
        rsa_public_key,
        rsa_private_key,
        ec_private_key,
        private_key_info,
        encrypted_private_key_info,
    ] = keys::types();
    let [
        extension,
        distribution_points,
        basic_constraints,
        authority_key,
        certificate_policies,
        access_descriptions,
        issuing_distribution_point,
        name_constraints,
    ] = extensions::types();
    let [
        attribute,
        message_attribute,
        bag_attribute,
        signing_certificate,
        signing_certificate_v2,
        capabilities,
    ] = attributes::types();
    let [certificate, certificate_list, certification_request] = certificates::types();
    let [
        attribute_certificate,
        attribute_certificate_info,
        service_authentication,
        ietf_attribute,
    ] = attribute_certificates::types();
    let [
        content_info,
        signed_data,
        enveloped_data,
        encrypted_data,
        authenticated_data,
        auth_enveloped_data,
        signer_info,
        certificate_choice,
        revocation_choice,
        encapsulated_content,
        recipient,
    ] = cms::types();
    let [signed_and_enveloped_data] = pkcs7::types();
    let [time_stamp_request, time_stamp_response, time_stamp_info] = time_stamps::types();
    let [pfx, authenticated_safe, safe_contents] = pkcs12::types();
    let [ocsp_request, ocsp_response] = ocsp::types();
    let [snmp_message, snmp_v3_message, pdus, var_bind] = snmp::types();
    let [
        ldap_message,
        filter,
        result_code,
        matched_name,
        diagnostic_message,
        referral,
        partial_attribute,
        operation,
        ldap_name,
        scope,
        dereferencing,
        change,
        ldap_identifier,
        new_name,
        new_superior,
        mechanism,
        selector,
        authentication,
        size_limit,
        time_limit,
        types_only,
        ldap_assertion,
        deletes_old_name,
        changed,
    ] = ldap::types();
    let [
        as_request,
        as_reply,
        tgs_request,
        tgs_reply,
        kdc_request,
        kdc_reply,
        ticket,
        ap_request,
        ap_reply,
        krb_safe,
        krb_private,
        krb_credentials,
        krb_error,
        encrypted,
        principal,
        host_address,
        ticket_alone,
    ] = kerberos::types();
    [
        name,
        general_name,
        digest_algorithm,
        algorithm,
        inner_algorithm,
        curve,
        password_based,
        key_derivation,
        gcm,
        signature_algorithm,
        signature_numbers,
        subject_public_key_info,
        rsa_public_key,
        rsa_private_key,
        ec_private_key,
        private_key_info,
        encrypted_private_key_info,
        extension,
        distribution_points,
        basic_constraints,
        authority_key,
        certificate_policies,
        access_descriptions,
        issuing_distribution_point,
        name_constraints,
        attribute,
        message_attribute,
        bag_attribute,
        signing_certificate,
        signing_certificate_v2,
        capabilities,
        certificate,
        certificate_list,
        certification_request,
        attribute_certificate,
        attribute_certificate_info,
        service_authentication,
        ietf_attribute,
        content_info,
        signed_data,
        enveloped_data,
        encrypted_data,
        authenticated_data,
        auth_enveloped_data,
        signer_info,
        certificate_choice,
        revocation_choice,
        encapsulated_content,
        recipient,
        signed_and_enveloped_data,
        time_stamp_request,
        time_stamp_response,
        time_stamp_info,
        pfx,
        authenticated_safe,
        safe_contents,
        ocsp_request,
        ocsp_response,
        snmp_message,
        snmp_v3_message,
        pdus,
        var_bind,
        ldap_message,
        filter,
        as_request,
        as_reply,
        tgs_request,
        tgs_reply,
        kdc_request,
        kdc_reply,
        ticket,
        ap_request,
        ap_reply,
        krb_safe,
        krb_private,
        krb_credentials,
        krb_error,
        encrypted,
        principal,
        host_address,
        ticket_alone,
        result_code,
        matched_name,
        diagnostic_message,
        referral,
        partial_attribute,
        operation,
        ldap_name,
        scope,
        dereferencing,
        change,
        ldap_identifier,
        new_name,
        new_superior,
        mechanism,
        selector,
        authentication,
        size_limit,
        time_limit,
        types_only,
        ldap_assertion,
        deletes_old_name,
        changed,
    ]
}
