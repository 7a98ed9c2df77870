//! Laws of certificates.
ghost use Rattle.prov_cert.specs.Kept.{CertsKeepForms};
ghost use Rattle.prov_cert.specs.Back.{KindsReadBack, RegionsReadBack, SpansReadBack, EntriesReadBack, NodesReadBack, CertsReadBack};

use uh_base::decimals_read_back;

/// A law: a certificate that is read has no more items than it may have; its numbers have 64 bits; its spans lead by
/// whole steps from the low end to the high one; each register is named once a node, each part of a stack lies at a
/// multiple of its width and meets no other; and every region, node and cell that it names is there, the cell of an own
/// region in a region of a lower number.
pub fn certs_keep_forms()
    ensures { CertsKeepForms }
{}

/// A law: the text of a kind, of a region, of a span, of an entry and of a node, as `cert_text` writes it, is read as
/// that item, where the item keeps its forms.
pub fn items_read_back()
    ensures kinds { KindsReadBack }
    ensures regions { RegionsReadBack }
    ensures spans { SpansReadBack }
    ensures entries { EntriesReadBack }
    ensures nodes { NodesReadBack }
{
    decimals_read_back();
}

/// A law: the text of a certificate that keeps its forms, as `cert_text` writes it, is read as that certificate.
pub fn certs_read_back()
    ensures { CertsReadBack }
{
    decimals_read_back();
}
