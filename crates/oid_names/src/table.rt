//! The names of object identifiers. Made by tools/identifier-names.

/// A line for each identifier that has a name: its content octets in hexadecimal digits, a space and
/// the name. The lines are in ascending order of the octets.
pub const NAMES: &str = "\
03a2310503010901 camellia-128-ecb\n\
03a2310503010903 camellia-128-ofb\n\
03a2310503010904 camellia-128-cfb\n\
03a2310503010906 camellia-128-gcm\n\
03a2310503010907 camellia-128-ccm\n\
03a2310503010909 camellia-128-ctr\n\
03a231050301090a camellia-128-cmac\n\
03a2310503010915 camellia-192-ecb\n\
03a2310503010917 camellia-192-ofb\n\
03a2310503010918 camellia-192-cfb\n\
03a231050301091a camellia-192-gcm\n\
03a231050301091b camellia-192-ccm\n\
03a231050301091d camellia-192-ctr\n\
03a231050301091e camellia-192-cmac\n\
03a2310503010929 camellia-256-ecb\n\
03a231050301092b camellia-256-ofb\n\
03a231050301092c camellia-256-cfb\n\
03a231050301092e camellia-256-gcm\n\
03a231050301092f camellia-256-ccm\n\
03a2310503010931 camellia-256-ctr\n\
03a2310503010932 camellia-256-cmac\n\
04007f00070101040101 ecdsa-plain-SHA1\n\
04007f00070101040102 ecdsa-plain-SHA224\n\
04007f00070101040103 ecdsa-plain-SHA256\n\
04007f00070101040104 ecdsa-plain-SHA384\n\
04007f00070101040105 ecdsa-plain-SHA512\n\
04007f00070101040106 ecdsa-plain-RIPEMD160\n\
04008198270101 psp-as\n\
04008198270102 psp-pi\n\
04008198270103 psp-ai\n\
04008198270104 psp-ic\n\
040081982702 etsi-psd2-qcStatement\n\
04008198270301 qcp-web-psd2\n\
04008bec400100 qcp-natural\n\
04008bec400101 qcp-legal\n\
04008bec400102 qcp-natural-qscd\n\
04008bec400103 qcp-legal-qscd\n\
04008bec400104 qcp-web\n\
04008bec400105 qncp-web\n\
04008bec400106 qncp-web-gen\n\
04008e4601 etsi-qcs\n\
04008e460101 etsi-qcs-QcCompliance\n\
04008e460102 etsi-qcs-QcLimitValue\n\
04008e460103 etsi-qcs-QcRetentionPeriod\n\
04008e460104 etsi-qcs-QcSSCD\n\
04008e460105 etsi-qcs-QcPDS\n\
04008e460106 etsi-qcs-QcType\n\
04008e46010601 etsi-qct-esign\n\
04008e46010602 etsi-qct-eseal\n\
04008e46010603 etsi-qct-web\n\
04008e460107 etsi-qcs-QcCClegislation\n\
04008f7a0101 ncp\n\
04008f7a0102 ncpplus\n\
04008f7a0103 lcp\n\
04008f7a0104 evcp\n\
04008f7a0105 evcpplus\n\
04008f7a0106 dvcp\n\
04008f7a0107 ovcp\n\
09 data\n\
099226 pss\n\
0992268993f22c ucl\n\
0992268993f22c64 pilot\n\
0992268993f22c6401 pilotAttributeType\n\
0992268993f22c640101 userId\n\
0992268993f22c640102 textEncodedORAddress\n\
0992268993f22c640103 rfc822Mailbox\n\
0992268993f22c640104 info\n\
0992268993f22c640105 favouriteDrink\n\
0992268993f22c640106 roomNumber\n\
0992268993f22c640107 photo\n\
0992268993f22c640108 userClass\n\
0992268993f22c640109 host\n\
0992268993f22c64010a manager\n\
0992268993f22c64010b documentIdentifier\n\
0992268993f22c64010c documentTitle\n\
0992268993f22c64010d documentVersion\n\
0992268993f22c64010e documentAuthor\n\
0992268993f22c64010f documentLocation\n\
0992268993f22c640114 homeTelephoneNumber\n\
0992268993f22c640115 secretary\n\
0992268993f22c640116 otherMailbox\n\
0992268993f22c640117 lastModifiedTime\n\
0992268993f22c640118 lastModifiedBy\n\
0992268993f22c640119 domainComponent\n\
0992268993f22c64011a aRecord\n\
0992268993f22c64011b mDRecord\n\
0992268993f22c64011c mXRecord\n\
0992268993f22c64011d nSRecord\n\
0992268993f22c64011e sOARecord\n\
0992268993f22c64011f cNAMERecord\n\
0992268993f22c640125 associatedDomain\n\
0992268993f22c640126 associatedName\n\
0992268993f22c640127 homePostalAddress\n\
0992268993f22c640128 personalTitle\n\
0992268993f22c640129 mobileTelephoneNumber\n\
0992268993f22c64012a pagerTelephoneNumber\n\
0992268993f22c64012b friendlyCountryName\n\
0992268993f22c64012c uniqueIdentifier\n\
0992268993f22c64012d organizationalStatus\n\
0992268993f22c64012e janetMailbox\n\
0992268993f22c64012f mailPreferenceOption\n\
0992268993f22c640130 buildingName\n\
0992268993f22c640131 dSAQuality\n\
0992268993f22c640132 singleLevelQuality\n\
0992268993f22c640133 subtreeMinimumQuality\n\
0992268993f22c640134 subtreeMaximumQuality\n\
0992268993f22c640135 personalSignature\n\
0992268993f22c640136 dITRedirect\n\
0992268993f22c640137 audio\n\
0992268993f22c640138 documentPublisher\n\
0992268993f22c64013c jpegPhoto\n\
0992268993f22c6403 pilotAttributeSyntax\n\
0992268993f22c640304 iA5StringSyntax\n\
0992268993f22c640305 caseIgnoreIA5StringSyntax\n\
0992268993f22c6404 pilotObjectClass\n\
0992268993f22c640403 pilotObject\n\
0992268993f22c640404 pilotPerson\n\
0992268993f22c640405 account\n\
0992268993f22c640406 document\n\
0992268993f22c640407 room\n\
0992268993f22c640409 documentSeries\n\
0992268993f22c64040d domain\n\
0992268993f22c64040e rFC822localPart\n\
0992268993f22c64040f dNSDomain\n\
0992268993f22c640411 domainRelatedObject\n\
0992268993f22c640412 friendlyCountry\n\
0992268993f22c640413 simpleSecurityObject\n\
0992268993f22c640414 pilotOrganization\n\
0992268993f22c640415 pilotDSA\n\
0992268993f22c640416 qualityLabelledData\n\
0992268993f22c640a pilotGroups\n\
28cc450304 gmac\n\
28cf06030037 whirlpool\n\
2a member-body\n\
2a811c ISO-CN\n\
2a811ccf55 oscca\n\
2a811ccf5501 sm-scheme\n\
2a811ccf55016801 sm4-ecb\n\
2a811ccf55016802 sm4-cbc\n\
2a811ccf55016803 sm4-ofb\n\
2a811ccf55016804 sm4-cfb\n\
2a811ccf55016805 sm4-cfb1\n\
2a811ccf55016806 sm4-cfb8\n\
2a811ccf55016807 sm4-ctr\n\
2a811ccf5501822d sm2\n\
2a811ccf55018311 sm3\n\
2a811ccf55018375 SM2-with-SM3\n\
2a811ccf55018378 sm3WithRSAEncryption\n\
2a83088c9a4b3d01010102 camellia-128-cbc\n\
2a83088c9a4b3d01010103 camellia-192-cbc\n\
2a83088c9a4b3d01010104 camellia-256-cbc\n\
2a83088c9a4b3d01010302 camellia128-wrap\n\
2a83088c9a4b3d01010303 camellia192-wrap\n\
2a83088c9a4b3d01010304 camellia256-wrap\n\
2a831a8c9a44 kisa\n\
2a831a8c9a440103 seed-ecb\n\
2a831a8c9a440104 seed-cbc\n\
2a831a8c9a440105 seed-cfb\n\
2a831a8c9a440106 seed-ofb\n\
2a831a8c9a6e010101 aria-128-ecb\n\
2a831a8c9a6e010102 aria-128-cbc\n\
2a831a8c9a6e010103 aria-128-cfb\n\
2a831a8c9a6e010104 aria-128-ofb\n\
2a831a8c9a6e010105 aria-128-ctr\n\
2a831a8c9a6e010106 aria-192-ecb\n\
2a831a8c9a6e010107 aria-192-cbc\n\
2a831a8c9a6e010108 aria-192-cfb\n\
2a831a8c9a6e010109 aria-192-ofb\n\
2a831a8c9a6e01010a aria-192-ctr\n\
2a831a8c9a6e01010b aria-256-ecb\n\
2a831a8c9a6e01010c aria-256-cbc\n\
2a831a8c9a6e01010d aria-256-cfb\n\
2a831a8c9a6e01010e aria-256-ofb\n\
2a831a8c9a6e01010f aria-256-ctr\n\
2a831a8c9a6e010122 aria-128-gcm\n\
2a831a8c9a6e010123 aria-192-gcm\n\
2a831a8c9a6e010124 aria-256-gcm\n\
2a831a8c9a6e010125 aria-128-ccm\n\
2a831a8c9a6e010126 aria-192-ccm\n\
2a831a8c9a6e010127 aria-256-ccm\n\
2a85030202 cryptopro\n\
2a8503020203 GostR3411-94-with-GostR3410-2001\n\
2a8503020204 GostR3411-94-with-GostR3410-94\n\
2a8503020209 GostR3411-94\n\
2a850302020a HMACGostR3411-94\n\
2a850302020e00 Gost28147-89-None-KeyMeshing\n\
2a850302020e01 Gost28147-89-CryptoPro-KeyMeshing\n\
2a8503020213 GostR3410-2001\n\
2a8503020214 GostR3410-94\n\
2a850302021401 GostR3410-94-a\n\
2a850302021402 GostR3410-94-aBis\n\
2a850302021403 GostR3410-94-b\n\
2a850302021404 GostR3410-94-bBis\n\
2a8503020215 Gost28147-89\n\
2a8503020216 Gost28147-89-MAC\n\
2a8503020217 GostR3411-94-prf\n\
2a850302021e00 GostR3411-94-TestParamSet\n\
2a850302021e01 GostR3411-94-CryptoProParamSet\n\
2a850302021f00 Gost28147-89-TestParamSet\n\
2a850302021f01 Gost28147-89-CryptoPro-A-ParamSet\n\
2a850302021f02 Gost28147-89-CryptoPro-B-ParamSet\n\
2a850302021f03 Gost28147-89-CryptoPro-C-ParamSet\n\
2a850302021f04 Gost28147-89-CryptoPro-D-ParamSet\n\
2a850302021f05 Gost28147-89-CryptoPro-Oscar-1-1-ParamSet\n\
2a850302021f06 Gost28147-89-CryptoPro-Oscar-1-0-ParamSet\n\
2a850302021f07 Gost28147-89-CryptoPro-RIC-1-ParamSet\n\
2a850302022000 GostR3410-94-TestParamSet\n\
2a850302022002 GostR3410-94-CryptoPro-A-ParamSet\n\
2a850302022003 GostR3410-94-CryptoPro-B-ParamSet\n\
2a850302022004 GostR3410-94-CryptoPro-C-ParamSet\n\
2a850302022005 GostR3410-94-CryptoPro-D-ParamSet\n\
2a850302022101 GostR3410-94-CryptoPro-XchA-ParamSet\n\
2a850302022102 GostR3410-94-CryptoPro-XchB-ParamSet\n\
2a850302022103 GostR3410-94-CryptoPro-XchC-ParamSet\n\
2a850302022300 GostR3410-2001-TestParamSet\n\
2a850302022301 GostR3410-2001-CryptoPro-A-ParamSet\n\
2a850302022302 GostR3410-2001-CryptoPro-B-ParamSet\n\
2a850302022303 GostR3410-2001-CryptoPro-C-ParamSet\n\
2a850302022400 GostR3410-2001-CryptoPro-XchA-ParamSet\n\
2a850302022401 GostR3410-2001-CryptoPro-XchB-ParamSet\n\
2a8503020262 GostR3410-2001DH\n\
2a8503020263 GostR3410-94DH\n\
2a85030209 cryptocom\n\
2a85030209010303 GostR3411-94-with-GostR3410-94-cc\n\
2a85030209010304 GostR3411-94-with-GostR3410-2001-cc\n\
2a85030209010503 gost94cc\n\
2a85030209010504 gost2001cc\n\
2a85030209010601 Gost28147-89-cc\n\
2a85030209010801 GostR3410-2001-ParamSet-cc\n\
2a85030381030101 INN\n\
2a85030701 tc26\n\
2a8503070101 tc26-algorithms\n\
2a850307010101 tc26-sign\n\
2a85030701010101 tc26-gost3410-12-256\n\
2a85030701010102 tc26-gost3410-12-512\n\
2a850307010102 tc26-digest\n\
2a85030701010202 tc26-gost3411-12-256\n\
2a85030701010203 tc26-gost3411-12-512\n\
2a850307010103 tc26-signwithdigest\n\
2a85030701010302 tc26-signwithdigest-gost3410-12-256\n\
2a85030701010303 tc26-signwithdigest-gost3410-12-512\n\
2a850307010104 tc26-mac\n\
2a85030701010401 tc26-hmac-gost-3411-2012-256\n\
2a85030701010402 tc26-hmac-gost-3411-2012-512\n\
2a850307010105 tc26-cipher\n\
2a85030701010501 tc26-cipher-gostr3412-2015-magma\n\
2a8503070101050101 magma-ctr-acpkm\n\
2a8503070101050102 magma-ctr-acpkm-omac\n\
2a85030701010502 tc26-cipher-gostr3412-2015-kuznyechik\n\
2a8503070101050201 kuznyechik-ctr-acpkm\n\
2a8503070101050202 kuznyechik-ctr-acpkm-omac\n\
2a850307010106 tc26-agreement\n\
2a85030701010601 tc26-agreement-gost-3410-2012-256\n\
2a85030701010602 tc26-agreement-gost-3410-2012-512\n\
2a850307010107 tc26-wrap\n\
2a85030701010701 tc26-wrap-gostr3412-2015-magma\n\
2a8503070101070101 magma-kexp15\n\
2a85030701010702 tc26-wrap-gostr3412-2015-kuznyechik\n\
2a8503070101070201 kuznyechik-kexp15\n\
2a8503070102 tc26-constants\n\
2a850307010201 tc26-sign-constants\n\
2a85030701020101 tc26-gost-3410-2012-256-constants\n\
2a8503070102010101 tc26-gost-3410-2012-256-paramSetA\n\
2a8503070102010102 tc26-gost-3410-2012-256-paramSetB\n\
2a8503070102010103 tc26-gost-3410-2012-256-paramSetC\n\
2a8503070102010104 tc26-gost-3410-2012-256-paramSetD\n\
2a85030701020102 tc26-gost-3410-2012-512-constants\n\
2a8503070102010200 tc26-gost-3410-2012-512-paramSetTest\n\
2a8503070102010201 tc26-gost-3410-2012-512-paramSetA\n\
2a8503070102010202 tc26-gost-3410-2012-512-paramSetB\n\
2a8503070102010203 tc26-gost-3410-2012-512-paramSetC\n\
2a850307010202 tc26-digest-constants\n\
2a850307010205 tc26-cipher-constants\n\
2a85030701020501 tc26-gost-28147-constants\n\
2a8503070102050101 tc26-gost-28147-param-Z\n\
2a85036401 OGRN\n\
2a85036403 SNILS\n\
2a85036405 OGRNIP\n\
2a8503646f subjectSignTool\n\
2a85036470 issuerSignTool\n\
2a85036471 classSignTool\n\
2a8503647101 classSignToolKC1\n\
2a8503647102 classSignToolKC2\n\
2a8503647103 classSignToolKC3\n\
2a8503647104 classSignToolKB1\n\
2a8503647105 classSignToolKB2\n\
2a8503647106 classSignToolKA1\n\
2a8624 ISO-UA\n\
2a862402010101 ua-pki\n\
2a862402010101010101 dstu28147\n\
2a86240201010101010102 dstu28147-ofb\n\
2a86240201010101010103 dstu28147-cfb\n\
2a86240201010101010105 dstu28147-wrap\n\
2a862402010101010102 hmacWithDstu34311\n\
2a862402010101010201 dstu34311\n\
2a86240201010101030101 dstu4145le\n\
2a8648 ISO-US\n\
2a864882f712010202 ms-krb5\n\
2a864886f67d074100 entrustVersInfo\n\
2a864886f67d07420a cast5-cbc\n\
2a864886f67d07420c pbeWithMD5AndCast5CBC\n\
2a864886f67d07420d PasswordBasedMac\n\
2a864886f67d07421e DHBasedMac\n\
2a864886f70d rsadsi\n\
2a864886f70d01 pkcs\n\
2a864886f70d0101 pkcs1\n\
2a864886f70d010101 rsaEncryption\n\
2a864886f70d010102 md2WithRSAEncryption\n\
2a864886f70d010103 md4WithRSAEncryption\n\
2a864886f70d010104 md5WithRSAEncryption\n\
2a864886f70d010105 sha1WithRSAEncryption\n\
2a864886f70d010106 rsaOAEPEncryptionSET\n\
2a864886f70d010107 rsaesOaep\n\
2a864886f70d010108 mgf1\n\
2a864886f70d010109 pSpecified\n\
2a864886f70d01010a rsassaPss\n\
2a864886f70d01010b sha256WithRSAEncryption\n\
2a864886f70d01010c sha384WithRSAEncryption\n\
2a864886f70d01010d sha512WithRSAEncryption\n\
2a864886f70d01010e sha224WithRSAEncryption\n\
2a864886f70d01010f sha512-224WithRSAEncryption\n\
2a864886f70d010110 sha512-256WithRSAEncryption\n\
2a864886f70d0103 pkcs3\n\
2a864886f70d010301 dhKeyAgreement\n\
2a864886f70d0105 pkcs5\n\
2a864886f70d010501 pbeWithMD2AndDES-CBC\n\
2a864886f70d010503 pbeWithMD5AndDES-CBC\n\
2a864886f70d010504 pbeWithMD2AndRC2-CBC\n\
2a864886f70d010506 pbeWithMD5AndRC2-CBC\n\
2a864886f70d01050a pbeWithSHA1AndDES-CBC\n\
2a864886f70d01050b pbeWithSHA1AndRC2-CBC\n\
2a864886f70d01050c PBKDF2\n\
2a864886f70d01050d PBES2\n\
2a864886f70d01050e PBMAC1\n\
2a864886f70d0107 pkcs7\n\
2a864886f70d010701 pkcs7-data\n\
2a864886f70d010702 pkcs7-signedData\n\
2a864886f70d010703 pkcs7-envelopedData\n\
2a864886f70d010704 pkcs7-signedAndEnvelopedData\n\
2a864886f70d010705 pkcs7-digestData\n\
2a864886f70d010706 pkcs7-encryptedData\n\
2a864886f70d0109 pkcs9\n\
2a864886f70d010901 emailAddress\n\
2a864886f70d010902 unstructuredName\n\
2a864886f70d010903 contentType\n\
2a864886f70d010904 messageDigest\n\
2a864886f70d010905 signingTime\n\
2a864886f70d010906 countersignature\n\
2a864886f70d010907 challengePassword\n\
2a864886f70d010908 unstructuredAddress\n\
2a864886f70d010909 extendedCertificateAttributes\n\
2a864886f70d01090d signingDescription\n\
2a864886f70d01090e extensionRequest\n\
2a864886f70d01090f smimeCapabilities\n\
2a864886f70d010910 smime\n\
2a864886f70d01091000 smime-mod\n\
2a864886f70d0109100001 smime-mod-cms\n\
2a864886f70d0109100002 smime-mod-ess\n\
2a864886f70d0109100003 smime-mod-oid\n\
2a864886f70d0109100004 smime-mod-msg-v3\n\
2a864886f70d0109100005 smime-mod-ets-eSignature-88\n\
2a864886f70d0109100006 smime-mod-ets-eSignature-97\n\
2a864886f70d0109100007 smime-mod-ets-eSigPolicy-88\n\
2a864886f70d0109100008 smime-mod-ets-eSigPolicy-97\n\
2a864886f70d01091001 smime-ct\n\
2a864886f70d0109100101 receipt\n\
2a864886f70d0109100102 authData\n\
2a864886f70d0109100103 publishCert\n\
2a864886f70d0109100104 TSTInfo\n\
2a864886f70d0109100105 TDTInfo\n\
2a864886f70d0109100106 contentInfo\n\
2a864886f70d0109100107 DVCSRequestData\n\
2a864886f70d0109100108 DVCSResponseData\n\
2a864886f70d0109100109 compressedData\n\
2a864886f70d0109100113 contentCollection\n\
2a864886f70d0109100117 authEnvelopedData\n\
2a864886f70d0109100118 routeOriginAuthz\n\
2a864886f70d010910011a rpkiManifest\n\
2a864886f70d010910011b asciiTextWithCRLF\n\
2a864886f70d010910011c xml\n\
2a864886f70d0109100123 rpkiGhostbusters\n\
2a864886f70d0109100124 resourceTaggedAttest\n\
2a864886f70d010910012f geofeedCSVwithCRLF\n\
2a864886f70d0109100130 signedChecklist\n\
2a864886f70d0109100131 ASPA\n\
2a864886f70d01091002 smime-aa\n\
2a864886f70d0109100201 receiptRequest\n\
2a864886f70d0109100202 securityLabel\n\
2a864886f70d0109100203 mlExpandHistory\n\
2a864886f70d0109100204 contentHint\n\
2a864886f70d0109100205 msgSigDigest\n\
2a864886f70d0109100206 encapContentType\n\
2a864886f70d0109100207 contentIdentifier\n\
2a864886f70d0109100208 macValue\n\
2a864886f70d0109100209 equivalentLabels\n\
2a864886f70d010910020a contentReference\n\
2a864886f70d010910020b encrypKeyPref\n\
2a864886f70d010910020c signingCertificate\n\
2a864886f70d010910020d smimeEncryptCerts\n\
2a864886f70d010910020e timeStampToken\n\
2a864886f70d010910020f sigPolicyId\n\
2a864886f70d0109100210 commitmentType\n\
2a864886f70d0109100211 signerLocation\n\
2a864886f70d0109100212 signerAttr\n\
2a864886f70d0109100213 otherSigCert\n\
2a864886f70d0109100214 contentTimestamp\n\
2a864886f70d0109100215 CertificateRefs\n\
2a864886f70d0109100216 RevocationRefs\n\
2a864886f70d0109100217 certValues\n\
2a864886f70d0109100218 revocationValues\n\
2a864886f70d0109100219 escTimeStamp\n\
2a864886f70d010910021a certCRLTimestamp\n\
2a864886f70d010910021b archiveTimeStamp\n\
2a864886f70d010910021c signatureType\n\
2a864886f70d010910021d dvcs-dvc\n\
2a864886f70d010910022f signingCertificateV2\n\
2a864886f70d01091003 smime-alg\n\
2a864886f70d0109100301 ESDHwith3DES\n\
2a864886f70d0109100302 ESDHwithRC2\n\
2a864886f70d0109100303 3DESwrap\n\
2a864886f70d0109100304 RC2wrap\n\
2a864886f70d0109100305 ESDH\n\
2a864886f70d0109100306 CMS3DESwrap\n\
2a864886f70d0109100307 CMSRC2wrap\n\
2a864886f70d0109100308 zlibCompress\n\
2a864886f70d0109100309 PWRI-KEK\n\
2a864886f70d0109100311 hss-lms-hashsig\n\
2a864886f70d0109100312 AEADChaCha20Poly1305\n\
2a864886f70d010910031c hkdf-with-sha256\n\
2a864886f70d010910031d hkdf-with-sha384\n\
2a864886f70d010910031e hkdf-with-sha512\n\
2a864886f70d01091004 smime-cd\n\
2a864886f70d0109100401 ldap\n\
2a864886f70d01091005 smime-spq\n\
2a864886f70d0109100501 ets-sqt-uri\n\
2a864886f70d0109100502 ets-sqt-unotice\n\
2a864886f70d01091006 smime-cti\n\
2a864886f70d0109100601 ets-proofOfOrigin\n\
2a864886f70d0109100602 ets-proofOfReceipt\n\
2a864886f70d0109100603 ets-proofOfDelivery\n\
2a864886f70d0109100604 ets-proofOfSender\n\
2a864886f70d0109100605 ets-proofOfApproval\n\
2a864886f70d0109100606 ets-proofOfCreation\n\
2a864886f70d010914 friendlyName\n\
2a864886f70d010915 localKeyId\n\
2a864886f70d01091601 x509Certificate\n\
2a864886f70d01091602 sdsiCertificate\n\
2a864886f70d01091701 x509Crl\n\
2a864886f70d010918 pkcs-9-oc\n\
2a864886f70d01091801 pkcsEntity\n\
2a864886f70d01091802 naturalPerson\n\
2a864886f70d010919 pkcs-9-at\n\
2a864886f70d01091901 pkcs15Token\n\
2a864886f70d01091902 encryptedPrivateKeyInfo\n\
2a864886f70d01091903 randomNonce\n\
2a864886f70d01091904 sequenceNumber\n\
2a864886f70d01091905 pkcs7PDU\n\
2a864886f70d01091a pkcs-9-sx\n\
2a864886f70d01091b pkcs-9-mr\n\
2a864886f70d010934 CMSAlgorithmProtection\n\
2a864886f70d010c0101 pbeWithSHA1And128BitRC4\n\
2a864886f70d010c0102 pbeWithSHA1And40BitRC4\n\
2a864886f70d010c0103 pbeWithSHA1And3-KeyTripleDES-CBC\n\
2a864886f70d010c0104 pbeWithSHA1And2-KeyTripleDES-CBC\n\
2a864886f70d010c0105 pbeWithSHA1And128BitRC2-CBC\n\
2a864886f70d010c0106 pbeWithSHA1And40BitRC2-CBC\n\
2a864886f70d010c0a0101 keyBag\n\
2a864886f70d010c0a0102 pkcs8ShroudedKeyBag\n\
2a864886f70d010c0a0103 certBag\n\
2a864886f70d010c0a0104 crlBag\n\
2a864886f70d010c0a0105 secretBag\n\
2a864886f70d010c0a0106 safeContentsBag\n\
2a864886f70d0202 md2\n\
2a864886f70d0204 md4\n\
2a864886f70d0205 md5\n\
2a864886f70d0206 hmacWithMD5\n\
2a864886f70d0207 hmacWithSHA1\n\
2a864886f70d0208 hmacWithSHA224\n\
2a864886f70d0209 hmacWithSHA256\n\
2a864886f70d020a hmacWithSHA384\n\
2a864886f70d020b hmacWithSHA512\n\
2a864886f70d020c hmacWithSHA512-224\n\
2a864886f70d020d hmacWithSHA512-256\n\
2a864886f70d0302 rc2-cbc\n\
2a864886f70d0304 rc4\n\
2a864886f70d0307 des-ede3-cbc\n\
2a864886f70d0308 rc5-cbc\n\
2a864886f70d030a des-cdmf\n\
2a864886f712010202 krb5\n\
2a864886f71201020201 krb5-name\n\
2a864886f71201020203 krb5-user-to-user\n\
2a864886f7140104823f pagedResults\n\
2a864886f71401048359 sortRequest\n\
2a864886f7140104835a sortResponse\n\
2a8648ce38 x9-57\n\
2a8648ce3802 holdInstruction\n\
2a8648ce380201 holdinstruction-none\n\
2a8648ce380202 holdinstruction-callissuer\n\
2a8648ce380203 holdinstruction-reject\n\
2a8648ce3804 x9cm\n\
2a8648ce380401 dsaEncryption\n\
2a8648ce380403 dsaWithSHA1\n\
2a8648ce3d ansi-X9-62\n\
2a8648ce3d0101 prime-field\n\
2a8648ce3d0102 characteristic-two-field\n\
2a8648ce3d010203 characteristic-two-basis\n\
2a8648ce3d01020301 onBasis\n\
2a8648ce3d01020302 tpBasis\n\
2a8648ce3d01020303 ppBasis\n\
2a8648ce3d0201 ecPublicKey\n\
2a8648ce3d030001 c2pnb163v1\n\
2a8648ce3d030002 c2pnb163v2\n\
2a8648ce3d030003 c2pnb163v3\n\
2a8648ce3d030004 c2pnb176v1\n\
2a8648ce3d030005 c2tnb191v1\n\
2a8648ce3d030006 c2tnb191v2\n\
2a8648ce3d030007 c2tnb191v3\n\
2a8648ce3d030008 c2onb191v4\n\
2a8648ce3d030009 c2onb191v5\n\
2a8648ce3d03000a c2pnb208w1\n\
2a8648ce3d03000b c2tnb239v1\n\
2a8648ce3d03000c c2tnb239v2\n\
2a8648ce3d03000d c2tnb239v3\n\
2a8648ce3d03000e c2onb239v4\n\
2a8648ce3d03000f c2onb239v5\n\
2a8648ce3d030010 c2pnb272w1\n\
2a8648ce3d030011 c2pnb304w1\n\
2a8648ce3d030012 c2tnb359v1\n\
2a8648ce3d030013 c2pnb368w1\n\
2a8648ce3d030014 c2tnb431r1\n\
2a8648ce3d030101 prime192v1\n\
2a8648ce3d030102 prime192v2\n\
2a8648ce3d030103 prime192v3\n\
2a8648ce3d030104 prime239v1\n\
2a8648ce3d030105 prime239v2\n\
2a8648ce3d030106 prime239v3\n\
2a8648ce3d030107 prime256v1\n\
2a8648ce3d0401 ecdsa-with-SHA1\n\
2a8648ce3d0402 ecdsa-with-Recommended\n\
2a8648ce3d0403 ecdsa-with-Specified\n\
2a8648ce3d040301 ecdsa-with-SHA224\n\
2a8648ce3d040302 ecdsa-with-SHA256\n\
2a8648ce3d040303 ecdsa-with-SHA384\n\
2a8648ce3d040304 ecdsa-with-SHA512\n\
2a8648ce3e0201 dhpublicnumber\n\
2b org\n\
2b06 dod\n\
2b0601 iana\n\
2b060101 directory\n\
2b06010108 cancel\n\
2b0601010c assertion\n\
2b0601010d01 preRead\n\
2b0601010d02 postRead\n\
2b060102 mgmt\n\
2b060103 experimental\n\
2b060104 private\n\
2b06010401 enterprises\n\
2b06010401813c07010102 idea-cbc\n\
2b060104018237 microsoft\n\
2b060104018237020104 spcIndirectData\n\
2b06010401823702010a spcSpAgencyInfo\n\
2b06010401823702010b spcStatementType\n\
2b06010401823702010c spcSpOpusInfo\n\
2b06010401823702010e certExtensions\n\
2b06010401823702010f spcPeImageData\n\
2b060104018237020115 individualCodeSigning\n\
2b060104018237020116 commercialCodeSigning\n\
2b06010401823702020a ntlmssp\n\
2b060104018237020401 nestedSignature\n\
2b060104018237030301 rfc3161CounterSign\n\
2b0601040182370a01 ctl\n\
2b0601040182370a0301 kpCtlUsageSigning\n\
2b0601040182370a0302 kpTimeStampSigning\n\
2b0601040182370a0303 serverGatedCrypto\n\
2b0601040182370a0304 kpEfs\n\
2b0601040182370a030401 efsRecovery\n\
2b0601040182370a0305 whqlCrypto\n\
2b0601040182370a0306 nt5Crypto\n\
2b0601040182370a0309 rootListSigner\n\
2b0601040182370a030a kpQualifiedSubordination\n\
2b0601040182370a030b kpKeyRecovery\n\
2b0601040182370a030c kpDocumentSigning\n\
2b0601040182370a030d kpLifetimeSigning\n\
2b0601040182370a0c01 anyApplicationPolicy\n\
2b0601040182370d01 renewalCertificate\n\
2b0601040182370d0201 enrollmentNameValuePair\n\
2b0601040182370d0202 enrollmentCspProvider\n\
2b0601040182370d0203 osVersion\n\
2b0601040182371101 keyProviderName\n\
2b0601040182371102 localMachineKeyset\n\
2b0601040182371402 enrollCerttypeExtension\n\
2b060104018237140201 enrollmentAgent\n\
2b060104018237140202 kpSmartcardLogon\n\
2b060104018237140203 ntPrincipalName\n\
2b0601040182371501 certsrvCaVersion\n\
2b0601040182371502 certsrvPreviousCertHash\n\
2b0601040182371503 crlVirtualBase\n\
2b0601040182371504 crlNextPublish\n\
2b0601040182371505 kpCaExchange\n\
2b0601040182371506 kpKeyRecoveryAgent\n\
2b0601040182371507 certificateTemplate\n\
2b060104018237150a applicationCertPolicies\n\
2b060104018237150b applicationPolicyMappings\n\
2b060104018237150c applicationPolicyConstraints\n\
2b060104018237150d archivedKeyAttr\n\
2b060104018237150e crlSelfCdp\n\
2b060104018237150f requireCertChainPolicy\n\
2b0601040182371510 archivedKeyCertHash\n\
2b0601040182371511 issuedCertHash\n\
2b0601040182371513 dsEmailReplication\n\
2b0601040182371514 requestClientInfo\n\
2b0601040182371515 encryptedKeyHash\n\
2b0601040182371516 certsrvCrossCaVersion\n\
2b0601040182371901 ntdsReplication\n\
2b0601040182371902 ntdsCaSecurityExt\n\
2b060104018237190201 ntdsObjectSid\n\
2b0601040182373c020101 jurisdictionLocalityName\n\
2b0601040182373c020102 jurisdictionStateOrProvinceName\n\
2b0601040182373c020103 jurisdictionCountryName\n\
2b0601040182df13 isrg\n\
2b0601040182df13010101 isrgDomainValidated\n\
2b060104018b3a657805 namingContexts\n\
2b060104018b3a657806 altServer\n\
2b060104018b3a657807 supportedExtension\n\
2b060104018b3a65780d supportedControl\n\
2b060104018b3a65780e supportedSASLMechanisms\n\
2b060104018b3a65780f supportedLDAPVersion\n\
2b060104018b3a657810 ldapSyntaxes\n\
2b060104018b3a65786f extensibleObject\n\
2b060104018b3a819c44 noticeOfDisconnection\n\
2b060104018b3a819c45 startTLS\n\
2b060104018b3a8258 dcObject\n\
2b060104018d3a0c0201 blake2bmac\n\
2b060104018d3a0c020110 blake2b512\n\
2b060104018d3a0c0202 blake2smac\n\
2b060104018d3a0c020208 blake2s256\n\
2b0601040197550102 bf-cbc\n\
2b06010401a06b010305 supportedFeatures\n\
2b06010401a06b01090101 syncRequest\n\
2b06010401a06b01090102 syncState\n\
2b06010401a06b01090103 syncDone\n\
2b06010401a06b01090104 syncInfo\n\
2b06010401a06b010a01 subentries\n\
2b06010401a06b010b01 passwdModify\n\
2b06010401a06b010b03 whoAmI\n\
2b06010401d679 google\n\
2b06010401d679020111 androidKeyDescription\n\
2b06010401d679020402 signedCertificateTimestampList\n\
2b06010401d679020403 precertificatePoison\n\
2b06010401d679020404 precertificateSigning\n\
2b06010401d679020405 ocspSignedCertificateTimestampList\n\
2b06010401d679020503 googleTrustServices\n\
2b06010401da47040b scrypt\n\
2b060105 security\n\
2b06010502 krb5\n\
2b0601050202 pkinit-san\n\
2b0601050203 pkinit\n\
2b060105020301 pkinit-authData\n\
2b060105020302 pkinit-DHKeyData\n\
2b060105020303 pkinit-rkeyData\n\
2b060105020304 pkinit-KPClientAuth\n\
2b060105020305 pkinit-KPKdc\n\
2b060105020306 pkinit-kdf\n\
2b06010502030601 pkinit-kdf-ah-sha1\n\
2b06010502030602 pkinit-kdf-ah-sha256\n\
2b06010502030603 pkinit-kdf-ah-sha512\n\
2b06010502030604 pkinit-kdf-ah-sha384\n\
2b0601050502 snego\n\
2b0601050507 pkix\n\
2b060105050700 pkix-mod\n\
2b06010505070001 pkix1-explicit-88\n\
2b06010505070002 pkix1-implicit-88\n\
2b06010505070003 pkix1-explicit-93\n\
2b06010505070004 pkix1-implicit-93\n\
2b06010505070005 mod-crmf\n\
2b06010505070006 mod-cmc\n\
2b06010505070007 mod-kea-profile-88\n\
2b06010505070008 mod-kea-profile-93\n\
2b06010505070009 mod-cmp\n\
2b0601050507000a mod-qualified-cert-88\n\
2b0601050507000b mod-qualified-cert-93\n\
2b0601050507000c mod-attribute-cert\n\
2b0601050507000d mod-timestamp-protocol\n\
2b0601050507000e mod-ocsp\n\
2b0601050507000f mod-dvcs\n\
2b06010505070010 mod-cmp2000\n\
2b060105050701 pe\n\
2b06010505070101 authorityInfoAccess\n\
2b06010505070102 biometricInfo\n\
2b06010505070103 qcStatements\n\
2b06010505070104 ac-auditEntity\n\
2b06010505070105 ac-targeting\n\
2b06010505070106 aaControls\n\
2b06010505070107 sbgp-ipAddrBlock\n\
2b06010505070108 sbgp-autonomousSysNum\n\
2b06010505070109 sbgp-routerIdentifier\n\
2b0601050507010a ac-proxying\n\
2b0601050507010b subjectInfoAccess\n\
2b0601050507010c logotype\n\
2b0601050507010d wlanSSID\n\
2b0601050507010e proxyCertInfo\n\
2b0601050507010f acPolicies\n\
2b06010505070115 clearanceConstraints\n\
2b06010505070118 tlsfeature\n\
2b06010505070119 mud-url\n\
2b0601050507011a TNAuthList\n\
2b0601050507011b JWTClaimConstraints\n\
2b0601050507011c ipAddrBlocks-v2\n\
2b0601050507011d autonomousSysIds-v2\n\
2b0601050507011e mudsigner\n\
2b0601050507011f acmeIdentifier\n\
2b060105050702 qt\n\
2b06010505070201 qt-cps\n\
2b06010505070202 qt-unotice\n\
2b06010505070203 textNotice\n\
2b060105050703 kp\n\
2b06010505070301 serverAuth\n\
2b06010505070302 clientAuth\n\
2b06010505070303 codeSigning\n\
2b06010505070304 emailProtection\n\
2b06010505070305 ipsecEndSystem\n\
2b06010505070306 ipsecTunnel\n\
2b06010505070307 ipsecUser\n\
2b06010505070308 timeStamping\n\
2b06010505070309 OCSPSigning\n\
2b0601050507030a dvcs\n\
2b0601050507030d eapOverPPP\n\
2b0601050507030e eapOverLAN\n\
2b0601050507030f scvpServer\n\
2b06010505070310 scvpClient\n\
2b06010505070311 ipsecIKE\n\
2b06010505070312 capwapAC\n\
2b06010505070313 capwapWTP\n\
2b06010505070314 sipDomain\n\
2b06010505070315 secureShellClient\n\
2b06010505070316 secureShellServer\n\
2b06010505070317 sendRouter\n\
2b06010505070318 sendProxiedRouter\n\
2b06010505070319 sendOwner\n\
2b0601050507031a sendProxiedOwner\n\
2b0601050507031b cmcCA\n\
2b0601050507031c cmcRA\n\
2b0601050507031d cmcArchive\n\
2b0601050507031e bgpsec-router\n\
2b0601050507031f BrandIndicatorforMessageIdentification\n\
2b06010505070320 cmKGA\n\
2b06010505070321 rpcTLSClient\n\
2b06010505070322 rpcTLSServer\n\
2b06010505070323 bundleSecurity\n\
2b06010505070324 documentSigning\n\
2b06010505070325 jwt\n\
2b06010505070326 httpContentEncrypt\n\
2b06010505070327 oauthAccessTokenSigning\n\
2b06010505070328 imUri\n\
2b060105050704 it\n\
2b06010505070401 caProtEncCert\n\
2b06010505070402 signKeyPairTypes\n\
2b06010505070403 encKeyPairTypes\n\
2b06010505070404 preferredSymmAlg\n\
2b06010505070405 caKeyUpdateInfo\n\
2b06010505070406 currentCRL\n\
2b06010505070407 unsupportedOIDs\n\
2b06010505070408 subscriptionRequest\n\
2b06010505070409 subscriptionResponse\n\
2b0601050507040a keyPairParamReq\n\
2b0601050507040b keyPairParamRep\n\
2b0601050507040c revPassphrase\n\
2b0601050507040d implicitConfirm\n\
2b0601050507040e confirmWaitTime\n\
2b0601050507040f origPKIMessage\n\
2b06010505070410 suppLangTags\n\
2b06010505070411 caCerts\n\
2b06010505070412 rootCaKeyUpdate\n\
2b06010505070413 certReqTemplate\n\
2b060105050705 pkip\n\
2b06010505070501 regCtrl\n\
2b0601050507050101 regToken\n\
2b0601050507050102 authenticator\n\
2b0601050507050103 pkiPublicationInfo\n\
2b0601050507050104 pkiArchiveOptions\n\
2b0601050507050105 oldCertID\n\
2b0601050507050106 protocolEncrKey\n\
2b06010505070502 regInfo\n\
2b0601050507050201 utf8Pairs\n\
2b0601050507050202 certReq\n\
2b060105050706 alg\n\
2b06010505070601 des40\n\
2b06010505070602 noSignature\n\
2b06010505070603 dh-sig-hmac-sha1\n\
2b06010505070604 dh-pop\n\
2b0601050507061e RSASSA-PSS-SHAKE128\n\
2b0601050507061f RSASSA-PSS-SHAKE256\n\
2b06010505070620 ecdsa-with-shake128\n\
2b06010505070621 ecdsa-with-shake256\n\
2b06010505070622 xmss-hashsig\n\
2b06010505070623 xmssmt-hashsig\n\
2b060105050707 cmc\n\
2b06010505070701 statusInfo\n\
2b06010505070702 identification\n\
2b06010505070703 identityProof\n\
2b06010505070704 dataReturn\n\
2b06010505070705 transactionId\n\
2b06010505070706 senderNonce\n\
2b06010505070707 recipientNonce\n\
2b06010505070708 addExtensions\n\
2b06010505070709 encryptedPOP\n\
2b0601050507070a decryptedPOP\n\
2b0601050507070b lraPOPWitness\n\
2b0601050507070f getCert\n\
2b06010505070710 getCRL\n\
2b06010505070711 revokeRequest\n\
2b06010505070712 regInfo\n\
2b06010505070713 responseInfo\n\
2b06010505070715 queryPending\n\
2b06010505070716 popLinkRandom\n\
2b06010505070717 popLinkWitness\n\
2b06010505070718 confirmCertAcceptance\n\
2b060105050708 on\n\
2b06010505070801 personalData\n\
2b06010505070803 permanentIdentifier\n\
2b06010505070804 hardwareModuleName\n\
2b06010505070805 xmppAddr\n\
2b06010505070807 dnsSRV\n\
2b06010505070808 naiRealm\n\
2b06010505070809 SmtpUTF8Mailbox\n\
2b0601050507080a AcpNodeName\n\
2b0601050507080b bundleEID\n\
2b060105050709 pda\n\
2b06010505070901 dateOfBirth\n\
2b06010505070902 placeOfBirth\n\
2b06010505070903 gender\n\
2b06010505070904 countryOfCitizenship\n\
2b06010505070905 countryOfResidence\n\
2b06010505070a aca\n\
2b06010505070a01 authenticationInfo\n\
2b06010505070a02 accessIdentity\n\
2b06010505070a03 chargingIdentity\n\
2b06010505070a04 group\n\
2b06010505070a05 role\n\
2b06010505070a06 encAttrs\n\
2b06010505070b qcs\n\
2b06010505070b01 pkixQCSyntax-v1\n\
2b06010505070b02 pkixQCSyntax-v2\n\
2b06010505070c cct\n\
2b06010505070c01 crs\n\
2b06010505070c02 PKIData\n\
2b06010505070c03 PKIResponse\n\
2b06010505070e cp\n\
2b06010505070e02 ipAddr-asNumber\n\
2b06010505070e03 ipAddr-asNumberv2\n\
2b060105050715 ppl\n\
2b06010505071500 anyLanguage\n\
2b06010505071501 inheritAll\n\
2b06010505071502 independent\n\
2b060105050730 ad\n\
2b06010505073001 ocsp\n\
2b0601050507300101 ocsp-basic\n\
2b0601050507300102 ocsp-nonce\n\
2b0601050507300103 ocsp-crl\n\
2b0601050507300104 ocsp-response\n\
2b0601050507300105 ocsp-nocheck\n\
2b0601050507300106 ocsp-archive-cutoff\n\
2b0601050507300107 ocsp-service-locator\n\
2b0601050507300108 ocsp-pref-sig-algs\n\
2b0601050507300109 ocsp-extended-revoke\n\
2b060105050730010a path\n\
2b060105050730010b trustRoot\n\
2b06010505073002 caIssuers\n\
2b06010505073003 timeStamping\n\
2b06010505073004 dvcs\n\
2b06010505073005 caRepository\n\
2b0601050507300a rpkiManifest\n\
2b0601050507300b signedObject\n\
2b0601050507300c cmc\n\
2b0601050507300d rpkiNotify\n\
2b0601050507300e stirTNList\n\
2b06010505080101 hmac-md5\n\
2b06010505080102 hmac-sha1\n\
2b0601050602 gss-host-based-services\n\
2b0601050603 gss-anonymous-name\n\
2b0601050604 gss-api-exported-name\n\
2b060106 snmpv2\n\
2b060107 Mail\n\
2b06010701 mime-mhs\n\
2b0601070101 mime-mhs-headings\n\
2b060107010101 hex-partial-message\n\
2b060107010102 hex-multipart-message\n\
2b0601070102 mime-mhs-bodies\n\
2b0e0302 algorithm\n\
2b0e030203 md5WithRSA\n\
2b0e030206 des-ecb\n\
2b0e030207 des-cbc\n\
2b0e030208 des-ofb\n\
2b0e030209 des-cfb\n\
2b0e03020b rsaSignature\n\
2b0e03020c dsaEncryption-old\n\
2b0e03020d dsaWithSHA\n\
2b0e03020f shaWithRSAEncryption\n\
2b0e030211 des-ede\n\
2b0e030212 sha\n\
2b0e03021a sha1\n\
2b0e03021b dsaWithSHA1-old\n\
2b0e03021d sha1WithRSA\n\
2b24030201 ripemd160\n\
2b2403030102 ripemd160WithRSA\n\
2b2403030208010101 brainpoolP160r1\n\
2b2403030208010102 brainpoolP160t1\n\
2b2403030208010103 brainpoolP192r1\n\
2b2403030208010104 brainpoolP192t1\n\
2b2403030208010105 brainpoolP224r1\n\
2b2403030208010106 brainpoolP224t1\n\
2b2403030208010107 brainpoolP256r1\n\
2b2403030208010108 brainpoolP256t1\n\
2b2403030208010109 brainpoolP320r1\n\
2b240303020801010a brainpoolP320t1\n\
2b240303020801010b brainpoolP384r1\n\
2b240303020801010c brainpoolP384t1\n\
2b240303020801010d brainpoolP512r1\n\
2b240303020801010e brainpoolP512t1\n\
2b24080303 x509ExtAdmission\n\
2b65010401 SXNetID\n\
2b656e X25519\n\
2b656f X448\n\
2b6570 Ed25519\n\
2b6571 Ed448\n\
2b6f ieee\n\
2b6f028c53 ieee-siswg\n\
2b6f028c53000101 aes-128-xts\n\
2b6f028c53000102 aes-256-xts\n\
2b8104 certicom-arc\n\
2b81040001 sect163k1\n\
2b81040002 sect163r1\n\
2b81040003 sect239k1\n\
2b81040004 sect113r1\n\
2b81040005 sect113r2\n\
2b81040006 secp112r1\n\
2b81040007 secp112r2\n\
2b81040008 secp160r1\n\
2b81040009 secp160k1\n\
2b8104000a secp256k1\n\
2b8104000f sect163r2\n\
2b81040010 sect283k1\n\
2b81040011 sect283r1\n\
2b81040016 sect131r1\n\
2b81040017 sect131r2\n\
2b81040018 sect193r1\n\
2b81040019 sect193r2\n\
2b8104001a sect233k1\n\
2b8104001b sect233r1\n\
2b8104001c secp128r1\n\
2b8104001d secp128r2\n\
2b8104001e secp160r2\n\
2b8104001f secp192k1\n\
2b81040020 secp224k1\n\
2b81040021 secp224r1\n\
2b81040022 secp384r1\n\
2b81040023 secp521r1\n\
2b81040024 sect409k1\n\
2b81040025 sect409r1\n\
2b81040026 sect571k1\n\
2b81040027 sect571r1\n\
2b8104010b00 dhSinglePass-stdDH-sha224kdf-scheme\n\
2b8104010b01 dhSinglePass-stdDH-sha256kdf-scheme\n\
2b8104010b02 dhSinglePass-stdDH-sha384kdf-scheme\n\
2b8104010b03 dhSinglePass-stdDH-sha512kdf-scheme\n\
2b8104010e00 dhSinglePass-cofactorDH-sha224kdf-scheme\n\
2b8104010e01 dhSinglePass-cofactorDH-sha256kdf-scheme\n\
2b8104010e02 dhSinglePass-cofactorDH-sha384kdf-scheme\n\
2b8104010e03 dhSinglePass-cofactorDH-sha512kdf-scheme\n\
2b81051086483f0002 dhSinglePass-stdDH-sha1kdf-scheme\n\
2b81051086483f0003 dhSinglePass-cofactorDH-sha1kdf-scheme\n\
55 ds\n\
550105 selected-attribute-types\n\
55010537 clearance\n\
5504 at\n\
550400 objectClass\n\
550401 aliasedEntryName\n\
550402 knowledgeInformation\n\
550403 commonName\n\
550404 surname\n\
550405 serialNumber\n\
550406 countryName\n\
550407 localityName\n\
550408 stateOrProvinceName\n\
550409 streetAddress\n\
55040a organizationName\n\
55040b organizationalUnitName\n\
55040c title\n\
55040d description\n\
55040e searchGuide\n\
55040f businessCategory\n\
550410 postalAddress\n\
550411 postalCode\n\
550412 postOfficeBox\n\
550413 physicalDeliveryOfficeName\n\
550414 telephoneNumber\n\
550415 telexNumber\n\
550416 teletexTerminalIdentifier\n\
550417 facsimileTelephoneNumber\n\
550418 x121Address\n\
550419 internationaliSDNNumber\n\
55041a registeredAddress\n\
55041b destinationIndicator\n\
55041c preferredDeliveryMethod\n\
55041d presentationAddress\n\
55041e supportedApplicationContext\n\
55041f member\n\
550420 owner\n\
550421 roleOccupant\n\
550422 seeAlso\n\
550423 userPassword\n\
550424 userCertificate\n\
550425 cACertificate\n\
550426 authorityRevocationList\n\
550427 certificateRevocationList\n\
550428 crossCertificatePair\n\
550429 name\n\
55042a givenName\n\
55042b initials\n\
55042c generationQualifier\n\
55042d x500UniqueIdentifier\n\
55042e dnQualifier\n\
55042f enhancedSearchGuide\n\
550430 protocolInformation\n\
550431 distinguishedName\n\
550432 uniqueMember\n\
550433 houseIdentifier\n\
550434 supportedAlgorithms\n\
550435 deltaRevocationList\n\
550436 dmdName\n\
550441 pseudonym\n\
550442 communicationsService\n\
550443 communicationsNetwork\n\
550444 certificationPractice\n\
550445 certificatePolicy\n\
550446 pKIPath\n\
550447 privPolicy\n\
550448 role\n\
550449 delegationPath\n\
55044a protPrivPolicy\n\
55044b xMLPrivilegeInfo\n\
55044c xMLPrivPolicy\n\
55044e tagOid\n\
55044f uiiFormat\n\
550450 uiiInUrh\n\
550451 contentUrl\n\
550452 permission\n\
550453 uri\n\
550454 pwdAttribute\n\
550455 userPwd\n\
550456 urn\n\
550457 url\n\
550461 organizationIdentifier\n\
550462 countryCode3c\n\
550463 countryCode3n\n\
550464 dnsName\n\
5506 oc\n\
550600 top\n\
550601 alias\n\
550602 country\n\
550603 locality\n\
550604 organization\n\
550605 organizationalUnit\n\
550606 person\n\
550607 organizationalPerson\n\
550608 organizationalRole\n\
550609 groupOfNames\n\
55060a residentialPerson\n\
55060b applicationProcess\n\
55060c applicationEntity\n\
55060d dSA\n\
55060e device\n\
55060f strongAuthenticationUser\n\
550610 certificationAuthority\n\
550611 groupOfUniqueNames\n\
550612 userSecurityInformation\n\
550613 cRLDistributionPoint\n\
550614 dmd\n\
550615 pkiUser\n\
550616 pkiCA\n\
550617 deltaCRL\n\
5508 X500algorithms\n\
55080101 rsa\n\
55080364 mdc2WithRSA\n\
55080365 mdc2\n\
550d00 objectIdentifierMatch\n\
550d01 distinguishedNameMatch\n\
550d02 caseIgnoreMatch\n\
550d03 caseIgnoreOrderingMatch\n\
550d04 caseIgnoreSubstringsMatch\n\
550d05 caseExactMatch\n\
550d06 caseExactOrderingMatch\n\
550d07 caseExactSubstringsMatch\n\
550d08 numericStringMatch\n\
550d09 numericStringOrderingMatch\n\
550d0a numericStringSubstringsMatch\n\
550d0b caseIgnoreListMatch\n\
550d0c caseIgnoreListSubstringsMatch\n\
550d0d booleanMatch\n\
550d0e integerMatch\n\
550d0f integerOrderingMatch\n\
550d10 bitStringMatch\n\
550d11 octetStringMatch\n\
550d12 octetStringOrderingMatch\n\
550d14 telephoneNumberMatch\n\
550d15 telephoneNumberSubstringsMatch\n\
550d17 uniqueMemberMatch\n\
550d1b generalizedTimeMatch\n\
550d1c generalizedTimeOrderingMatch\n\
550d1d integerFirstComponentMatch\n\
550d1e objectIdentifierFirstComponentMatch\n\
550d1f directoryStringFirstComponentMatch\n\
550d20 wordMatch\n\
550d21 keywordMatch\n\
551201 createTimestamp\n\
551202 modifyTimestamp\n\
551203 creatorsName\n\
551204 modifiersName\n\
55120a subschemaSubentry\n\
551501 dITStructureRules\n\
551502 dITContentRules\n\
551504 matchingRules\n\
551505 attributeTypes\n\
551506 objectClasses\n\
551507 nameForms\n\
551508 matchingRuleUse\n\
551509 structuralObjectClass\n\
55150a governingStructureRule\n\
551d ce\n\
551d09 subjectDirectoryAttributes\n\
551d0e subjectKeyIdentifier\n\
551d0f keyUsage\n\
551d10 privateKeyUsagePeriod\n\
551d11 subjectAltName\n\
551d12 issuerAltName\n\
551d13 basicConstraints\n\
551d14 cRLNumber\n\
551d15 cRLReasons\n\
551d17 holdInstructionCode\n\
551d18 invalidityDate\n\
551d1b deltaCRLIndicator\n\
551d1c issuingDistributionPoint\n\
551d1d certificateIssuer\n\
551d1e nameConstraints\n\
551d1f cRLDistributionPoints\n\
551d20 certificatePolicies\n\
551d2000 anyPolicy\n\
551d21 policyMappings\n\
551d23 authorityKeyIdentifier\n\
551d24 policyConstraints\n\
551d25 extKeyUsage\n\
551d2500 anyExtendedKeyUsage\n\
551d2e freshestCRL\n\
551d36 inhibitAnyPolicy\n\
551d37 targetInformation\n\
551d38 noRevAvail\n\
608648016503040101 aes-128-ecb\n\
608648016503040102 aes-128-cbc\n\
608648016503040103 aes-128-ofb\n\
608648016503040104 aes-128-cfb\n\
608648016503040105 aes128-wrap\n\
608648016503040106 aes-128-gcm\n\
608648016503040107 aes-128-ccm\n\
608648016503040108 aes128-wrap-pad\n\
608648016503040115 aes-192-ecb\n\
608648016503040116 aes-192-cbc\n\
608648016503040117 aes-192-ofb\n\
608648016503040118 aes-192-cfb\n\
608648016503040119 aes192-wrap\n\
60864801650304011a aes-192-gcm\n\
60864801650304011b aes-192-ccm\n\
60864801650304011c aes192-wrap-pad\n\
608648016503040129 aes-256-ecb\n\
60864801650304012a aes-256-cbc\n\
60864801650304012b aes-256-ofb\n\
60864801650304012c aes-256-cfb\n\
60864801650304012d aes256-wrap\n\
60864801650304012e aes-256-gcm\n\
60864801650304012f aes-256-ccm\n\
608648016503040130 aes256-wrap-pad\n\
608648016503040201 sha256\n\
608648016503040202 sha384\n\
608648016503040203 sha512\n\
608648016503040204 sha224\n\
608648016503040205 sha512-224\n\
608648016503040206 sha512-256\n\
608648016503040207 sha3-224\n\
608648016503040208 sha3-256\n\
608648016503040209 sha3-384\n\
60864801650304020a sha3-512\n\
60864801650304020b shake128\n\
60864801650304020c shake256\n\
60864801650304020d hmac-sha3-224\n\
60864801650304020e hmac-sha3-256\n\
60864801650304020f hmac-sha3-384\n\
608648016503040210 hmac-sha3-512\n\
608648016503040213 KMACWithSHAKE128\n\
608648016503040214 KMACWithSHAKE256\n\
608648016503040301 dsa-with-sha224\n\
608648016503040302 dsa-with-sha256\n\
608648016503040303 dsa-with-sha384\n\
608648016503040304 dsa-with-sha512\n\
608648016503040305 dsa-with-sha3-224\n\
608648016503040306 dsa-with-sha3-256\n\
608648016503040307 dsa-with-sha3-384\n\
608648016503040308 dsa-with-sha3-512\n\
608648016503040309 ecdsa-with-sha3-224\n\
60864801650304030a ecdsa-with-sha3-256\n\
60864801650304030b ecdsa-with-sha3-384\n\
60864801650304030c ecdsa-with-sha3-512\n\
60864801650304030d rsassa-pkcs1-v1-5-with-sha3-224\n\
60864801650304030e rsassa-pkcs1-v1-5-with-sha3-256\n\
60864801650304030f rsassa-pkcs1-v1-5-with-sha3-384\n\
608648016503040310 rsassa-pkcs1-v1-5-with-sha3-512\n\
608648016503040311 ml-dsa-44\n\
608648016503040312 ml-dsa-65\n\
608648016503040313 ml-dsa-87\n\
608648016503040314 slh-dsa-sha2-128s\n\
608648016503040315 slh-dsa-sha2-128f\n\
608648016503040316 slh-dsa-sha2-192s\n\
608648016503040317 slh-dsa-sha2-192f\n\
608648016503040318 slh-dsa-sha2-256s\n\
608648016503040319 slh-dsa-sha2-256f\n\
60864801650304031a slh-dsa-shake-128s\n\
60864801650304031b slh-dsa-shake-128f\n\
60864801650304031c slh-dsa-shake-192s\n\
60864801650304031d slh-dsa-shake-192f\n\
60864801650304031e slh-dsa-shake-256s\n\
60864801650304031f slh-dsa-shake-256f\n\
608648016503040320 hash-ml-dsa-44-with-sha512\n\
608648016503040321 hash-ml-dsa-65-with-sha512\n\
608648016503040322 hash-ml-dsa-87-with-sha512\n\
608648016503040323 hash-slh-dsa-sha2-128s-with-sha256\n\
608648016503040324 hash-slh-dsa-sha2-128f-with-sha256\n\
608648016503040325 hash-slh-dsa-sha2-192s-with-sha512\n\
608648016503040326 hash-slh-dsa-sha2-192f-with-sha512\n\
608648016503040327 hash-slh-dsa-sha2-256s-with-sha512\n\
608648016503040328 hash-slh-dsa-sha2-256f-with-sha512\n\
608648016503040329 hash-slh-dsa-shake-128s-with-shake128\n\
60864801650304032a hash-slh-dsa-shake-128f-with-shake128\n\
60864801650304032b hash-slh-dsa-shake-192s-with-shake256\n\
60864801650304032c hash-slh-dsa-shake-192f-with-shake256\n\
60864801650304032d hash-slh-dsa-shake-256s-with-shake256\n\
60864801650304032e hash-slh-dsa-shake-256f-with-shake256\n\
608648016503040401 ml-kem-512\n\
608648016503040402 ml-kem-768\n\
608648016503040403 ml-kem-1024\n\
6086480186f842 netscape\n\
6086480186f84201 netscape-cert-extension\n\
6086480186f8420101 netscape-cert-type\n\
6086480186f8420102 netscape-base-url\n\
6086480186f8420103 netscape-revocation-url\n\
6086480186f8420104 netscape-ca-revocation-url\n\
6086480186f8420107 netscape-cert-renewal-url\n\
6086480186f8420108 netscape-ca-policy-url\n\
6086480186f842010c netscape-ssl-server-name\n\
6086480186f842010d netscape-comment\n\
6086480186f84202 netscape-data-type\n\
6086480186f8420205 netscape-cert-sequence\n\
6086480186f842030101 carLicense\n\
6086480186f842030102 departmentNumber\n\
6086480186f842030103 employeeNumber\n\
6086480186f842030104 employeeType\n\
6086480186f842030122 ref\n\
6086480186f842030127 preferredLanguage\n\
6086480186f842030128 userSMIMECertificate\n\
6086480186f84203018158 userPKCS12\n\
6086480186f84203018171 displayName\n\
6086480186f842030202 inetOrgPerson\n\
6086480186f842030402 manageDsaIT\n\
6086480186f842030412 proxiedAuthorization\n\
6086480186f8420401 serverGatedCrypto\n\
67 international-organizations\n\
672a set\n\
672a00 set-ctype\n\
672a0000 setct-PANData\n\
672a0001 setct-PANToken\n\
672a0002 setct-PANOnly\n\
672a0003 setct-OIData\n\
672a0004 setct-PI\n\
672a0005 setct-PIData\n\
672a0006 setct-PIDataUnsigned\n\
672a0007 setct-HODInput\n\
672a0008 setct-AuthResBaggage\n\
672a0009 setct-AuthRevReqBaggage\n\
672a000a setct-AuthRevResBaggage\n\
672a000b setct-CapTokenSeq\n\
672a000c setct-PInitResData\n\
672a000d setct-PI-TBS\n\
672a000e setct-PResData\n\
672a0010 setct-AuthReqTBS\n\
672a0011 setct-AuthResTBS\n\
672a0012 setct-AuthResTBSX\n\
672a0013 setct-AuthTokenTBS\n\
672a0014 setct-CapTokenData\n\
672a0015 setct-CapTokenTBS\n\
672a0016 setct-AcqCardCodeMsg\n\
672a0017 setct-AuthRevReqTBS\n\
672a0018 setct-AuthRevResData\n\
672a0019 setct-AuthRevResTBS\n\
672a001a setct-CapReqTBS\n\
672a001b setct-CapReqTBSX\n\
672a001c setct-CapResData\n\
672a001d setct-CapRevReqTBS\n\
672a001e setct-CapRevReqTBSX\n\
672a001f setct-CapRevResData\n\
672a0020 setct-CredReqTBS\n\
672a0021 setct-CredReqTBSX\n\
672a0022 setct-CredResData\n\
672a0023 setct-CredRevReqTBS\n\
672a0024 setct-CredRevReqTBSX\n\
672a0025 setct-CredRevResData\n\
672a0026 setct-PCertReqData\n\
672a0027 setct-PCertResTBS\n\
672a0028 setct-BatchAdminReqData\n\
672a0029 setct-BatchAdminResData\n\
672a002a setct-CardCInitResTBS\n\
672a002b setct-MeAqCInitResTBS\n\
672a002c setct-RegFormResTBS\n\
672a002d setct-CertReqData\n\
672a002e setct-CertReqTBS\n\
672a002f setct-CertResData\n\
672a0030 setct-CertInqReqTBS\n\
672a0031 setct-ErrorTBS\n\
672a0032 setct-PIDualSignedTBE\n\
672a0033 setct-PIUnsignedTBE\n\
672a0034 setct-AuthReqTBE\n\
672a0035 setct-AuthResTBE\n\
672a0036 setct-AuthResTBEX\n\
672a0037 setct-AuthTokenTBE\n\
672a0038 setct-CapTokenTBE\n\
672a0039 setct-CapTokenTBEX\n\
672a003a setct-AcqCardCodeMsgTBE\n\
672a003b setct-AuthRevReqTBE\n\
672a003c setct-AuthRevResTBE\n\
672a003d setct-AuthRevResTBEB\n\
672a003e setct-CapReqTBE\n\
672a003f setct-CapReqTBEX\n\
672a0040 setct-CapResTBE\n\
672a0041 setct-CapRevReqTBE\n\
672a0042 setct-CapRevReqTBEX\n\
672a0043 setct-CapRevResTBE\n\
672a0044 setct-CredReqTBE\n\
672a0045 setct-CredReqTBEX\n\
672a0046 setct-CredResTBE\n\
672a0047 setct-CredRevReqTBE\n\
672a0048 setct-CredRevReqTBEX\n\
672a0049 setct-CredRevResTBE\n\
672a004a setct-BatchAdminReqTBE\n\
672a004b setct-BatchAdminResTBE\n\
672a004c setct-RegFormReqTBE\n\
672a004d setct-CertReqTBE\n\
672a004e setct-CertReqTBEX\n\
672a004f setct-CertResTBE\n\
672a0050 setct-CRLNotificationTBS\n\
672a0051 setct-CRLNotificationResTBS\n\
672a0052 setct-BCIDistributionTBS\n\
672a01 set-msgExt\n\
672a0101 setext-genCrypt\n\
672a0103 setext-miAuth\n\
672a0104 setext-pinSecure\n\
672a0105 setext-pinAny\n\
672a0107 setext-track2\n\
672a0108 setext-cv\n\
672a03 set-attr\n\
672a0300 setAttr-Cert\n\
672a030000 set-rootKeyThumb\n\
672a030001 set-addPolicy\n\
672a0301 setAttr-PGWYcap\n\
672a0302 setAttr-TokenType\n\
672a030201 setAttr-Token-EMV\n\
672a030202 setAttr-Token-B0Prime\n\
672a0303 setAttr-IssCap\n\
672a030303 setAttr-IssCap-CVM\n\
672a03030301 setAttr-GenCryptgrm\n\
672a030304 setAttr-IssCap-T2\n\
672a03030401 setAttr-T2Enc\n\
672a03030402 setAttr-T2cleartxt\n\
672a030305 setAttr-IssCap-Sig\n\
672a03030501 setAttr-TokICCsig\n\
672a03030502 setAttr-SecDevSig\n\
672a05 set-policy\n\
672a0500 set-policy-root\n\
672a07 set-certExt\n\
672a0700 setCext-hashedRoot\n\
672a0701 setCext-certType\n\
672a0702 setCext-merchData\n\
672a0703 setCext-cCertRequired\n\
672a0704 setCext-tunneling\n\
672a0705 setCext-setExt\n\
672a0706 setCext-setQualf\n\
672a0707 setCext-PGWYcapabilities\n\
672a0708 setCext-TokenIdentifier\n\
672a0709 setCext-Track2Data\n\
672a070a setCext-TokenType\n\
672a070b setCext-IssuerCapabilities\n\
672a08 set-brand\n\
672a0801 set-brand-IATA-ATA\n\
672a0804 set-brand-Visa\n\
672a0805 set-brand-MasterCard\n\
672a081e set-brand-Diners\n\
672a0822 set-brand-AmericanExpress\n\
672a0823 set-brand-JCB\n\
672a08ae7b set-brand-Novus\n\
672b wap\n\
672b01 wap-wsg\n\
672b010401 wap-wsg-idm-ecid-wtls1\n\
672b010403 wap-wsg-idm-ecid-wtls3\n\
672b010404 wap-wsg-idm-ecid-wtls4\n\
672b010405 wap-wsg-idm-ecid-wtls5\n\
672b010406 wap-wsg-idm-ecid-wtls6\n\
672b010407 wap-wsg-idm-ecid-wtls7\n\
672b010408 wap-wsg-idm-ecid-wtls8\n\
672b010409 wap-wsg-idm-ecid-wtls9\n\
672b01040a wap-wsg-idm-ecid-wtls10\n\
672b01040b wap-wsg-idm-ecid-wtls11\n\
672b01040c wap-wsg-idm-ecid-wtls12\n\
6781050201 tpmManufacturer\n\
6781050202 tpmModel\n\
6781050203 tpmVersion\n\
6781050210 tpmSpecification\n\
6781050801 kp-EKCertificate\n\
6781050802 kp-PlatformCertificate\n\
6781050803 kp-AIKCertificate\n\
678108010101 ldsSecurityObject\n\
678108010102 cscaMasterList\n\
678108010103 cscaMasterListSigningKey\n\
67810c ca-browser-forum\n\
67810c01 certificate-policies\n\
67810c0101 ev-guidelines\n\
67810c0102 baseline-requirements\n\
67810c010201 domain-validated\n\
67810c010202 organization-validated\n\
67810c010203 individual-validated\n\
67810c0103 extended-validation-codesigning\n\
67810c0104 code-signing-requirements\n\
67810c010401 code-signing\n\
67810c010402 timestamping\n\
67810c0105 smime-baseline\n\
67810c010501 mailbox-validated\n\
67810c01050101 mailbox-validated-legacy\n\
67810c01050102 mailbox-validated-multipurpose\n\
67810c01050103 mailbox-validated-strict\n\
67810c010502 smime-organization-validated\n\
67810c01050201 organization-validated-legacy\n\
67810c01050202 organization-validated-multipurpose\n\
67810c01050203 organization-validated-strict\n\
67810c010503 sponsor-validated\n\
67810c01050301 sponsor-validated-legacy\n\
67810c01050302 sponsor-validated-multipurpose\n\
67810c01050303 sponsor-validated-strict\n\
67810c010504 smime-individual-validated\n\
67810c01050401 individual-validated-legacy\n\
67810c01050402 individual-validated-multipurpose\n\
67810c01050403 individual-validated-strict\n\
67810c011f torServiceDescriptor\n\
67810c0301 cabfOrganizationIdentifier\n\
67810c29 caSigningNonce\n\
67810c2a applicantSigningNonce\n\
";

/// Where each line begins, in ascending order of the hashes of the octets.
pub(crate) static LINES: [u16; 1459] = [
    7849, 41031, 42908, 43057, 41059, 43084, 1109, 41088, 1136, 41117, 42597, 1161, 41143, 1193,
    41170, 42622, 1223, 41197, 42645, 1246, 41226, 42671, 1270, 5692, 41256, 1771, 41286, 42694,
    41314, 42717, 41341, 41374, 41407, 41438, 7464, 41469, 41498, 41525, 41551, 43800, 41578,
    41607, 41631, 41662, 41691, 45625, 41717, 45649, 26609, 41743, 26646, 41770, 26683, 26838,
    41798, 26720, 26866, 41825, 26757, 26898, 41853, 26787, 26929, 31738, 41886, 7914, 26957,
    41915, 43146, 7952, 26988, 41944, 42965, 43177, 27017, 41974, 43028, 5020, 27049, 41999, 43116,
    5052, 15586, 27080, 42025, 5084, 15623, 27110, 42050, 5116, 27140, 42078, 5148, 42107, 5180,
    42135, 5212, 42161, 5244, 27171, 42188, 4302, 5276, 27196, 42214, 5308, 18741, 27220, 42243,
    5340, 27251, 42273, 5372, 27276, 42302, 5404, 42334, 5436, 27306, 42366, 5468, 27336, 42395,
    27367, 42421, 1081, 27399, 39772, 42448, 39804, 42474, 39842, 42508, 39878, 42545, 27456, 9532,
    27486, 27523, 8025, 27559, 8078, 27585, 42752, 8980, 27609, 42827, 7786, 9033, 15660, 27635,
    42852, 5500, 7887, 9086, 27668, 42941, 5532, 7990, 9139, 27697, 5564, 8131, 5596, 8247, 5628,
    8539, 5660, 8671, 35696, 19374, 19003, 16385, 16415, 16458, 16489, 40087, 9669, 16519, 19040,
    39912, 9696, 16552, 19077, 9722, 19115, 31700, 17235, 19150, 18978, 19186, 39937, 27743, 39976,
    27772, 17471, 27802, 8155, 27826, 8201, 27864, 19222, 9243, 19265, 9299, 8894, 9352, 15718,
    9405, 9458, 15750, 30343, 9495, 40234, 20074, 20109, 44625, 44655, 44691, 19308, 6006, 6036,
    6069, 6099, 27919, 27955, 27987, 8274, 28021, 8399, 28044, 28066, 31589, 43226, 31642, 15814,
    15847, 15892, 15925, 15961, 44325, 44353, 44387, 17040, 39322, 40122, 39694, 44914, 28111,
    44954, 28144, 45000, 8569, 8620, 22949, 23496, 40155, 24274, 7741, 24372, 25519, 40265, 26154,
    43827, 26480, 30426, 26819, 19337, 27438, 27724, 34099, 27900, 34128, 28092, 34158, 28177,
    34181, 34212, 44805, 28271, 34245, 44831, 34267, 34297, 34329, 34355, 34389, 34425, 28357,
    34452, 34489, 45082, 28196, 34509, 45127, 21652, 28217, 34529, 45178, 21695, 28242, 34557,
    8696, 34579, 8776, 34603, 34635, 43270, 34663, 43298, 43324, 34701, 43351, 43382, 43409, 43433,
    34726, 43459, 34754, 43493, 34790, 43526, 20147, 34824, 43554, 34867, 43581, 34909, 34926,
    44883, 45040, 18788, 45223, 45380, 28462, 18806, 45254, 45294, 45340, 16091, 16136, 43634,
    16180, 16234, 16288, 43662, 16337, 43686, 22579, 22610, 29450, 22642, 35811, 20302, 22673,
    20338, 22708, 20381, 22736, 20415, 20449, 20481, 20519, 20558, 20601, 20646, 20694, 20729,
    20759, 20801, 45420, 20840, 45463, 17064, 28289, 45512, 20874, 28322, 17095, 20912, 20949,
    20985, 43716, 5713, 5759, 7720, 43742, 43777, 5803, 5829, 1514, 21725, 1544, 17710, 1574,
    17738, 5952, 17766, 5980, 17794, 6132, 17822, 6158, 17850, 30506, 6188, 17878, 17906, 17934,
    17962, 28480, 17990, 28865, 18018, 28892, 18046, 28922, 18074, 28944, 18102, 18130, 18158,
    18186, 43851, 18214, 28974, 18242, 29004, 43885, 29034, 43919, 1832, 29055, 43953, 29083,
    43987, 3559, 44021, 3683, 44055, 44089, 18923, 44123, 44158, 44193, 4232, 18571, 18270, 18606,
    18298, 18641, 18326, 18676, 18354, 18382, 18410, 18438, 28502, 28532, 28562, 28590, 28623,
    28655, 21911, 28694, 28734, 28772, 28812, 28836, 18748, 1790, 22519, 34946, 34969, 34992,
    35012, 31177, 31226, 31275, 31324, 35033, 7406, 29795, 7436, 30448, 30477, 21026, 21061, 4317,
    18827, 18848, 39363, 39401, 39438, 39481, 39527, 39572, 39614, 39658, 29298, 4331, 30526,
    30547, 30568, 39298, 30589, 30610, 30631, 39730, 30652, 30673, 30694, 30715, 12261, 12298,
    12335, 18711, 21753, 12372, 21819, 12412, 30736, 12463, 30757, 12514, 30778, 12565, 29349,
    29384, 35058, 35083, 30416, 30799, 35106, 30820, 31373, 35127, 30841, 31427, 35149, 1640,
    30862, 31481, 35170, 1657, 30883, 31535, 35187, 1678, 30904, 35210, 1695, 6218, 30925, 35239,
    1713, 6259, 30946, 1735, 30967, 1753, 30988, 1046, 31009, 31030, 31051, 31072, 7485, 31093,
    7536, 31114, 34051, 19955, 31135, 20000, 31156, 20043, 12646, 12677, 12709, 12744, 17493,
    12775, 17520, 12806, 12841, 12880, 12920, 17560, 6305, 6346, 12958, 6395, 6444, 28376, 6493,
    28405, 6542, 12999, 28433, 40197, 6599, 13040, 6656, 13080, 13116, 13157, 21785, 13407, 13445,
    13482, 13184, 13521, 17683, 13224, 13556, 13592, 13632, 13673, 13705, 13745, 13785, 13822,
    13864, 13905, 13943, 13268, 13978, 40018, 13310, 14016, 6709, 13349, 14054, 14088, 6750, 14124,
    6799, 14164, 6848, 14203, 21851, 6897, 14241, 14275, 14315, 7589, 14351, 7615, 14391, 14431,
    44567, 14468, 44592, 44725, 44768, 14575, 44857, 14611, 14646, 14678, 14709, 14737, 14772,
    14806, 14842, 40052, 29825, 29860, 29895, 14500, 29930, 14874, 29965, 14913, 30000, 6946, 9927,
    30035, 6998, 30070, 7050, 22082, 30105, 30140, 30175, 7643, 30210, 30245, 30280, 10224, 45555,
    14957, 14997, 15037, 1318, 30362, 1353, 15107, 30376, 1388, 30388, 1428, 4916, 30403, 1457,
    4942, 18466, 1485, 4968, 18497, 1602, 4994, 18535, 18757, 35926, 35957, 22114, 35988, 36019,
    22148, 36050, 10210, 36081, 36112, 36143, 4658, 45587, 4698, 4738, 15166, 15201, 36178, 36209,
    36240, 21133, 36271, 21181, 36302, 21236, 36333, 4548, 36364, 36395, 4569, 7102, 7145, 36682,
    7196, 36708, 7247, 36734, 36760, 36786, 7676, 36816, 9747, 36846, 9777, 36874, 9807, 36902,
    9837, 31757, 36430, 36930, 9867, 36461, 36958, 9897, 33531, 36492, 36986, 36523, 37014, 44513,
    15271, 34031, 36554, 37047, 15312, 34064, 36585, 37080, 15354, 34085, 36616, 37113, 15397,
    36647, 15438, 15481, 37146, 37182, 7298, 7352, 37218, 37253, 37288, 8744, 35269, 37323, 37358,
    37395, 37432, 17252, 37469, 37506, 4778, 17397, 37545, 4818, 30315, 37584, 4858, 37623, 37662,
    37713, 37764, 37815, 37866, 37895, 37924, 37953, 37990, 717, 38027, 755, 38064, 795, 38101,
    835, 38138, 875, 38175, 915, 38213, 38251, 29318, 38289, 29421, 38327, 38365, 38403, 39207,
    38449, 39237, 38495, 39267, 8829, 38541, 38595, 38649, 38703, 38757, 38811, 38865, 38922,
    38979, 19437, 39036, 10485, 19476, 39093, 10518, 19516, 39150, 10558, 19555, 10598, 19617,
    10638, 19649, 10679, 10719, 10748, 19680, 10772, 19716, 10802, 19762, 10831, 18769, 19797,
    10874, 18870, 19836, 10917, 18884, 10960, 18906, 11003, 22501, 11050, 29268, 29284, 35277,
    1870, 1898, 1940, 1975, 35311, 2001, 9941, 35339, 2037, 4590, 35355, 2069, 35384, 2096, 35406,
    2127, 4620, 35427, 2153, 35451, 2182, 35468, 2222, 2257, 35486, 2294, 35513, 2330, 10442,
    35535, 35560, 35592, 2368, 35617, 2409, 35640, 2440, 35669, 2474, 35715, 2512, 2548, 35737,
    2585, 35767, 2614, 35792, 2644, 2674, 2704, 21098, 2735, 22176, 35840, 2768, 2806, 2842, 2881,
    2916, 2959, 3001, 3042, 35859, 3080, 11120, 35883, 3122, 35908, 3156, 3198, 3232, 44416, 3264,
    44447, 3304, 44475, 3347, 3390, 3429, 3462, 3489, 3528, 21885, 3599, 3636, 10251, 8324, 8359,
    10176, 4371, 4396, 4421, 4446, 4471, 4497, 4523, 21348, 21384, 3719, 21415, 3752, 3785, 3814,
    8454, 3844, 8494, 3870, 21455, 21493, 21538, 21580, 3906, 3934, 11177, 3971, 10286, 11217,
    4002, 10315, 11257, 4043, 10356, 4080, 11297, 4122, 21283, 4161, 4191, 17281, 11337, 17317,
    11378, 17359, 11419, 11445, 11470, 17602, 17629, 17656, 22535, 22559, 10392, 29111, 29137,
    22198, 4898, 17134, 31706, 4263, 22973, 1809, 23008, 23043, 9575, 23078, 23113, 23139, 23164,
    23200, 23236, 11519, 23261, 11549, 23300, 11585, 23339, 11624, 23375, 11672, 23415, 10422,
    11708, 23441, 23467, 17415, 17444, 23514, 29469, 23551, 23582, 23612, 29491, 23644, 29510,
    23674, 29529, 23702, 29548, 9994, 12230, 23736, 10031, 12616, 23775, 29567, 13377, 21614,
    23814, 29591, 10068, 14544, 23843, 29620, 15077, 23878, 15135, 23904, 29642, 15240, 23930,
    23961, 29674, 10462, 17168, 29693, 17201, 11097, 11154, 23989, 11496, 21950, 21985, 11747,
    22018, 24027, 29708, 22050, 24055, 29724, 22241, 24080, 22293, 24108, 29751, 22335, 22912,
    24145, 22378, 24178, 24215, 24242, 24292, 22931, 24316, 24344, 11770, 29774, 11802, 11838,
    11869, 1298, 11902, 11933, 11969, 19414, 12006, 16591, 12045, 31765, 16612, 31784, 16633,
    31808, 16654, 31836, 12094, 16683, 31854, 12132, 16713, 31869, 12168, 16745, 22475, 31889,
    12205, 16777, 31908, 16809, 31928, 16841, 22434, 31955, 16877, 29164, 31976, 15524, 29201,
    32000, 1779, 15556, 29233, 32030, 32043, 7757, 24390, 32062, 8866, 15689, 24418, 32081, 15785,
    24446, 32105, 15991, 24475, 32126, 16020, 24508, 32144, 24540, 32165, 24569, 32199, 24596,
    32222, 19875, 24626, 32241, 24655, 32274, 0, 32306, 32325, 34, 24677, 32356, 68, 24705, 32381,
    24733, 32409, 102, 24761, 32440, 136, 16913, 24789, 32467, 24815, 32502, 170, 16938, 24841,
    32516, 204, 24868, 32529, 24895, 32549, 16959, 24930, 32564, 16989, 24965, 32584, 24993, 32607,
    17014, 25028, 32628, 25055, 32659, 18946, 25089, 32692, 5859, 25112, 32720, 5903, 25135, 32732,
    16049, 25163, 32749, 239, 25194, 32765, 40274, 25250, 25537, 32792, 42579, 273, 25273, 25568,
    32820, 307, 8929, 25303, 25602, 32839, 42736, 42774, 9192, 25333, 25635, 32866, 42802, 341,
    25365, 25669, 32893, 43208, 375, 25398, 25702, 32918, 25419, 25730, 26199, 32938, 43251, 409,
    25455, 25763, 26227, 32961, 43617, 443, 25496, 25800, 26260, 32988, 25838, 26298, 33015, 25871,
    26335, 25904, 26364, 25935, 44228, 25968, 44255, 26001, 44275, 26033, 19582, 26063, 26088,
    33539, 26121, 33550, 478, 33563, 33030, 33578, 512, 33047, 33594, 546, 33076, 33614, 33105,
    33640, 580, 4348, 33134, 33654, 614, 33159, 33682, 33174, 33708, 648, 33192, 33728, 44297, 682,
    9963, 33204, 33753, 4279, 10106, 22762, 33226, 33779, 22798, 33248, 33804, 22836, 26174, 33272,
    33815, 43836, 22874, 26399, 33829, 33293, 33861, 33307, 33891, 33324, 33917, 42995, 33340,
    33948, 26424, 33358, 33976, 40291, 26453, 33376, 33987, 40314, 9618, 33387, 34002, 40338,
    33407, 34015, 40361, 9634, 33422, 40383, 33433, 40401, 9651, 40423, 40453, 40477, 19917, 40507,
    40540, 21305, 40573, 40600, 44537, 40628, 40650, 33444, 33474, 40674, 958, 33495, 40700, 980,
    33516, 40726, 1002, 40753, 1024, 40781, 40809, 10145, 40836, 40866, 20190, 40895, 20227, 26499,
    40925, 20265, 26522, 40954, 26551, 40979, 7811, 26585, 41005, 42879,
];

/// How many lines have octets with a smaller hash, for each hash and one more.
pub(crate) static SMALLER: [u16; 1025] = [
    0, 4, 6, 8, 11, 13, 16, 19, 22, 25, 28, 30, 31, 32, 33, 34, 36, 37, 38, 40, 41, 42, 43, 44, 46,
    48, 50, 52, 55, 58, 61, 65, 69, 74, 77, 81, 85, 89, 92, 94, 96, 98, 101, 105, 109, 112, 115,
    117, 120, 123, 125, 129, 131, 133, 135, 135, 135, 135, 135, 136, 136, 138, 139, 141, 142, 144,
    147, 152, 157, 161, 163, 165, 167, 170, 171, 171, 171, 171, 172, 172, 173, 174, 175, 177, 181,
    184, 187, 188, 189, 192, 194, 195, 197, 199, 201, 202, 204, 205, 208, 211, 211, 212, 213, 213,
    214, 215, 216, 216, 216, 216, 216, 217, 218, 219, 219, 220, 220, 220, 221, 222, 223, 225, 226,
    227, 229, 231, 232, 234, 235, 236, 237, 238, 239, 241, 242, 243, 243, 243, 243, 243, 243, 244,
    244, 244, 244, 246, 247, 247, 247, 247, 247, 248, 250, 252, 252, 253, 254, 254, 254, 254, 255,
    257, 258, 260, 262, 264, 266, 267, 269, 271, 273, 275, 277, 279, 282, 283, 284, 285, 286, 287,
    288, 290, 292, 295, 299, 302, 304, 306, 306, 308, 310, 311, 313, 314, 315, 316, 318, 320, 322,
    325, 327, 328, 329, 329, 330, 331, 333, 334, 335, 335, 336, 336, 336, 337, 338, 339, 339, 339,
    339, 339, 340, 342, 343, 344, 346, 348, 349, 351, 353, 355, 357, 359, 360, 361, 362, 363, 363,
    363, 364, 365, 366, 367, 368, 369, 371, 373, 376, 378, 380, 381, 383, 383, 384, 385, 387, 388,
    388, 388, 389, 390, 390, 390, 390, 390, 390, 392, 394, 396, 398, 400, 402, 405, 407, 408, 409,
    411, 413, 415, 417, 419, 420, 421, 422, 424, 426, 429, 431, 434, 436, 438, 440, 441, 443, 444,
    445, 445, 447, 449, 451, 453, 454, 455, 456, 457, 458, 459, 460, 461, 462, 463, 465, 466, 467,
    468, 469, 469, 470, 470, 470, 470, 470, 470, 471, 471, 472, 473, 474, 475, 476, 477, 478, 479,
    480, 480, 481, 481, 481, 481, 481, 481, 481, 481, 481, 481, 481, 481, 481, 483, 485, 486, 486,
    486, 486, 487, 488, 488, 488, 488, 489, 489, 489, 489, 489, 489, 489, 489, 489, 489, 490, 491,
    492, 493, 494, 495, 495, 495, 496, 497, 497, 497, 497, 498, 499, 499, 499, 500, 500, 500, 500,
    500, 500, 500, 500, 500, 500, 500, 501, 501, 501, 501, 502, 503, 505, 506, 507, 509, 510, 511,
    512, 513, 514, 515, 518, 520, 522, 524, 526, 528, 530, 531, 531, 534, 537, 540, 544, 548, 551,
    555, 558, 560, 562, 564, 565, 566, 567, 569, 572, 574, 576, 577, 577, 578, 579, 580, 582, 584,
    585, 586, 587, 588, 588, 588, 588, 588, 588, 588, 589, 589, 590, 592, 593, 595, 597, 601, 603,
    604, 605, 606, 607, 607, 608, 608, 609, 610, 611, 614, 616, 617, 618, 619, 620, 621, 622, 623,
    624, 625, 626, 629, 631, 634, 635, 637, 639, 642, 644, 645, 646, 648, 650, 652, 654, 655, 656,
    658, 659, 660, 661, 662, 663, 664, 665, 666, 667, 667, 667, 668, 669, 670, 672, 674, 676, 679,
    681, 684, 685, 686, 688, 689, 690, 692, 693, 694, 695, 697, 700, 702, 705, 708, 711, 714, 714,
    714, 714, 714, 714, 714, 714, 714, 714, 714, 714, 715, 716, 717, 719, 720, 722, 724, 725, 726,
    726, 728, 729, 730, 730, 731, 732, 732, 732, 732, 732, 732, 733, 734, 735, 737, 739, 741, 743,
    744, 744, 745, 746, 748, 750, 752, 753, 754, 756, 758, 760, 762, 766, 769, 773, 776, 780, 784,
    788, 790, 791, 793, 794, 794, 794, 794, 794, 794, 794, 794, 794, 794, 794, 795, 797, 798, 799,
    802, 803, 804, 805, 807, 808, 811, 814, 816, 817, 818, 819, 820, 821, 822, 823, 824, 825, 827,
    829, 831, 833, 835, 837, 838, 840, 842, 843, 845, 847, 849, 851, 852, 853, 854, 855, 856, 857,
    858, 859, 861, 864, 867, 869, 871, 873, 874, 875, 877, 879, 881, 884, 887, 889, 891, 893, 895,
    897, 897, 898, 899, 900, 902, 905, 908, 910, 912, 915, 917, 919, 920, 922, 924, 926, 926, 927,
    928, 929, 931, 933, 935, 937, 938, 940, 942, 944, 945, 946, 948, 949, 949, 949, 949, 949, 951,
    952, 953, 954, 955, 956, 957, 958, 960, 963, 965, 966, 967, 969, 971, 973, 974, 975, 976, 977,
    978, 978, 978, 978, 979, 979, 979, 979, 980, 980, 981, 983, 984, 985, 985, 986, 986, 986, 986,
    986, 986, 987, 988, 989, 990, 991, 992, 993, 993, 993, 993, 993, 993, 993, 993, 993, 993, 993,
    994, 995, 997, 998, 999, 1001, 1003, 1003, 1005, 1006, 1007, 1008, 1009, 1011, 1013, 1014,
    1017, 1019, 1021, 1023, 1024, 1026, 1028, 1030, 1031, 1032, 1034, 1035, 1036, 1036, 1036, 1037,
    1038, 1038, 1040, 1041, 1041, 1041, 1041, 1041, 1041, 1041, 1041, 1041, 1042, 1042, 1042, 1042,
    1042, 1042, 1042, 1042, 1042, 1043, 1043, 1044, 1044, 1045, 1045, 1045, 1045, 1045, 1045, 1045,
    1045, 1045, 1047, 1049, 1050, 1052, 1053, 1054, 1055, 1056, 1057, 1059, 1061, 1063, 1065, 1067,
    1070, 1071, 1071, 1072, 1072, 1073, 1073, 1073, 1073, 1073, 1073, 1073, 1073, 1073, 1073, 1073,
    1073, 1075, 1076, 1077, 1079, 1081, 1083, 1085, 1088, 1092, 1096, 1100, 1102, 1105, 1107, 1109,
    1112, 1113, 1114, 1114, 1115, 1116, 1118, 1119, 1123, 1126, 1128, 1131, 1134, 1136, 1137, 1138,
    1139, 1141, 1142, 1142, 1142, 1142, 1142, 1142, 1142, 1144, 1145, 1146, 1147, 1149, 1150, 1152,
    1154, 1156, 1158, 1160, 1162, 1165, 1168, 1172, 1175, 1177, 1180, 1183, 1186, 1190, 1191, 1194,
    1198, 1201, 1204, 1207, 1209, 1211, 1213, 1216, 1218, 1220, 1221, 1224, 1227, 1229, 1232, 1236,
    1238, 1242, 1245, 1247, 1250, 1253, 1255, 1258, 1260, 1263, 1266, 1269, 1272, 1276, 1280, 1284,
    1291, 1296, 1301, 1305, 1310, 1316, 1321, 1324, 1326, 1328, 1330, 1332, 1334, 1335, 1337, 1339,
    1341, 1343, 1345, 1348, 1351, 1353, 1357, 1360, 1362, 1366, 1370, 1375, 1378, 1383, 1386, 1388,
    1390, 1393, 1395, 1399, 1403, 1407, 1410, 1413, 1415, 1417, 1418, 1419, 1421, 1422, 1424, 1426,
    1427, 1428, 1429, 1431, 1434, 1437, 1439, 1441, 1442, 1444, 1445, 1447, 1450, 1453, 1455, 1459,
];
