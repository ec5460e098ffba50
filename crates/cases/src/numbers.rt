use refusals::Refusal;

// In the order of docs/REFUSALS.md, which is that of the numbers from 1 and of trying.
const ALL: [Refusal; 21] = [
    Refusal::ProposalStands,
    Refusal::TicketMismatch,
    Refusal::NoProposal,
    Refusal::NotOffered,
    Refusal::OneComponent,
    Refusal::AlreadyFiled,
    Refusal::NotFiled,
    Refusal::NoticesFull,
    Refusal::LedgerFull,
    Refusal::NoLawfulSet,
    Refusal::WrongLength,
    Refusal::UnusableFile,
    Refusal::MalformedRecord,
    Refusal::MalformedName,
    Refusal::MalformedVersion,
    Refusal::WrongKind,
    Refusal::ReleaseOutOfOrder,
    Refusal::TableFull,
    Refusal::UnknownNeed,
    Refusal::NeedsItself,
    Refusal::ManifestMismatch,
];

#[test]
fn refusals_have_their_numbers_and_places(rt: HostRuntime) {
    for (i, x) in ALL.iter().enumerate() {
        assert_eq!(rt; x.number() as usize, i.saturating_add(1));
        for (j, y) in ALL.iter().enumerate() {
            assert_eq!(rt; x.tried_before(*y), i < j);
        }
    }
}
