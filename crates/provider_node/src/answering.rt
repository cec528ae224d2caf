//! A provider as a node that answers requests.

use crate::codes::code_of;
use crate::provider::ProviderNode;
use crate::role::Role;
use crate::steps::answer_whole;
use crash_disk::Disk;
use gate_journal::OpenFault;
use http_wire::{Answer, HttpRequest};
use serve_loop::Node;

impl<R: Role> Node for ProviderNode<R> {
    ghost use Rattle.provider_node.specs.Node.{MayOpen, provider_rules};
    ghost use Rattle.provider_node.specs.Owning.{own_may_open};

    ghost rules = { provider_rules R.Rows.rules R.answers };

    ghost may_open = { MayOpen R.Rows.rules };

    ghost own_may_open = { λ node disk. own_may_open R.Rows.rules disk node.ledger };

    fn answer<D: Disk>(&mut self, request: &HttpRequest<'_>, now: u64, disk: &mut D) -> Answer {
        if !self.ledger.is_broken() {
            return answer_whole(&self.role, &mut self.ledger, request, now, disk);
        }
        if let Err(fault) = self.ledger.reopen(disk) {
            return Answer::Fixed(code_of(fault));
        }
        answer_whole(&self.role, &mut self.ledger, request, now, disk)
    }

    fn restart<D: Disk>(&mut self, disk: &mut D) -> Result<(), OpenFault> {
        self.ledger.reopen(disk)
    }

    fn compact<D: Disk>(&mut self, disk: &mut D, now: u64) -> Result<(), OpenFault> {
        if !self.ledger.is_broken() {
            return self.ledger.compact(disk, now);
        }
        self.ledger.reopen(disk)?;
        self.ledger.compact(disk, now)
    }
}
