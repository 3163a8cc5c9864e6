// The answer to a line that the rule refuses.
ghost use Rattle.std.specs.Prelude.{◌≡◌, IfOk};
ghost use Rattle.member_lines.specs.Refused.{refused_as, refused_text};

use members::MemberRefusal;
use proposal_text::{Bar, ProposalReply, ServedReply, print_line};
use std::alloc::{AllocError, Global};

fn refused_as(refusal: MemberRefusal) -> ProposalReply
    ensures { result ≡ refused_as refusal }
{
    match refusal {
        MemberRefusal::NotAllowed => ProposalReply::Barred(Bar::NotAllowed),
        MemberRefusal::Quota => ProposalReply::Barred(Bar::OverQuota),
    }
}

// Its line, with a line feed.
pub(crate) fn refused_text(
    alloc: Global,
    number: u32,
    refusal: MemberRefusal,
) -> Result<Vec<u8>, AllocError>
    ensures { IfOk result (λ text. text.items ≡ refused_text number refusal) }
{
    print_line(alloc, number, &ServedReply::Told(refused_as(refusal)))
}
