// What an account has: its report, deposits and withdrawals.
ghost use Rattle.std.specs.Prelude.{◌≡◌, ℕ, ◌+◌, ◌≤◌, false, is_ok, unsigned_abs};
ghost use Rattle.refusals.specs.Ranges.{first, answered};
ghost use Rattle.records.specs.Lists.{items};
ghost use Rattle.report.specs.State.{of_account};
ghost use Rattle.report.specs.Report.{settled_difference, report_of, withdrawable};
ghost use Rattle.rolling.specs.Balances.{money, deposits, first_waiting, second_waiting};
ghost use Rattle.book.specs.Calls.{deposit_causes, withdraw_causes, report_causes, paid, deposited, withdrawn, left_by};
ghost use Rattle.runs.specs.Calls.Call.{deposit, withdraw};
ghost use Rattle.runs.specs.Whole.{Whole};
ghost use Rattle.book.specs.View.{view};
ghost use Rattle.book.specs.Payments.{payment};

use crate::state::Book;
use money::Yen;
use refusals::{Ranged, Refusal};
use report::{MarginReport, OpenLots, Standing, TodaysSlips, in_yen};
use rolling::{Balance, Balances};
use schedules::Schedule;
use tables::numbered;

// A payment that nothing refuses: whose it is, and how many yen.
#[derive(Clone, Copy)]
struct Payment {
    account: u32,
    yen: i64,
}

// Adds to an account's deposit, or takes from it. `as`: std has no `From` from u32 to usize.
fn pay(balances: &mut Balances, account: u32, yen: i64)
    requires from { 1 ≤ account }
    requires upto { account ≤ 64 }
    requires roomy { unsigned_abs (of_account (deposits balances.old) account) ≤ 1000000000000000000 }
    requires few { unsigned_abs yen ≤ 1000000000 }
    ensures { money balances.new ≡ paid (money balances.old) account yen }
{
    let place = account as usize - 1;
    let deposit = Yen(balances[place].deposit.0 + yen);
    balances[place] = Balance {
        deposit,
        ..balances[place]
    };
}

impl<'a> Book<'a> {
    // The open lots, which the book keeps within bounds.
    pub(crate) fn open_lots(&self) -> OpenLots<'_>
        ensures { result.lots.now ≡ items self.now.ledger.lots }
    {
        OpenLots {
            lots: self.ledger.lots.all(),
        }
    }

    // Today's slips, which the book keeps within bounds.
    fn todays_slips(&self) -> TodaysSlips<'_>
        ensures { result.slips.now ≡ items self.now.ledger.slips }
    {
        TodaysSlips {
            slips: self.ledger.slips.all(),
        }
    }

    // The balance of an account; none of an account that is not in the book.
    fn balance(&self, account: u32) -> Balance
        ensures deposit { result.deposit.0 ≡ of_account (deposits self.now.balances) account }
        ensures waiting_one { result.waiting_one.0 ≡ of_account (first_waiting self.now.balances) account }
        ensures waiting_two { result.waiting_two.0 ≡ of_account (second_waiting self.now.balances) account }
        ensures deposit_few { unsigned_abs result.deposit.0 ≤ 150000000000000000 }
        ensures one_few { unsigned_abs result.waiting_one.0 ≤ 150000000000000000 }
        ensures two_few { unsigned_abs result.waiting_two.0 ≤ 150000000000000000 }
    {
        numbered(&self.balances, account).unwrap_or(Balance::ZERO)
    }

    // What a payment, in or out, moves, or the first cause that refuses it, but for what may be withdrawn. `as`: std has no
    // `From` from u64 to i64.
    fn check_payment(&self, account: u64, yen: u64) -> Result<Payment, Refusal>
        ensures { result ≡ answered (first (deposit_causes (view self.now) account yen)) (payment account yen) }
    {
        let account = self.check_account(account)?;
        self.check_entry()?;
        if yen.is_outside(1, 1_000_000_000) {
            return Err(Refusal::Amount);
        }
        Ok(Payment {
            account,
            yen: yen as i64,
        })
    }

    // Both waiting amounts of an account with today's slips.
    fn settled(&self, account: u32) -> Yen
        ensures yen { result.0 ≡ settled_difference (view self.now) account }
        ensures most { unsigned_abs result.0 ≤ 3000000000000000000 }
    {
        let today = in_yen(&self.prices, &self.todays_slips(), account);
        let balance = self.balance(account);
        Yen(balance.waiting_one.0 + (balance.waiting_two.0 + today.0))
    }

    // The seven figures of an account.
    fn figures<S: Schedule>(&self, schedule: &S, account: u32) -> MarginReport
        ensures { result ≡ report_of (S.Schedule.base schedule.now) (view self.now) account }
    {
        let lots = self.open_lots();
        let standing = Standing {
            deposit: self.balance(account).deposit,
            settled: self.settled(account),
            unsettled: in_yen(&self.prices, &lots, account),
            base: lots.base_in_yen(schedule, account),
        };
        standing.report()
    }

    // What an account may withdraw. `as`: std has no `From` from i64 to u64.
    fn withdrawable<S: Schedule>(&self, schedule: &S, account: u32) -> u64
        ensures { result ≡ withdrawable (S.Schedule.base schedule.now) (view self.now) account }
    {
        self.figures(schedule, account).withdrawable.0 as u64
    }

    // The seven figures of an account that is in the book. It takes no entry number.
    pub fn report<S: Schedule>(&self, schedule: &S, account: u64) -> Result<MarginReport, Refusal>
        ensures { result ≡ answered (first (report_causes (view self.now) account)) (report_of (S.Schedule.base schedule.now) (view self.now) account) }
    {
        let account = self.check_account(account)?;
        Ok(self.figures(schedule, account))
    }

    // Adds yen to an account's deposit.
    pub fn deposit(&mut self, account: u64, yen: u64) -> Result<u32, Refusal>
        ensures answer { result ≡ answered (first (deposit_causes (view self.old) account yen)) (self.old.entries + 1) }
        ensures left { view self.new ≡ left_by (first (deposit_causes (view self.old) account yen)) (deposited (view self.old) account yen) (view self.old) }
        ensures whole { Whole (deposit account yen) (view self.old) (view self.new) }
        ensures untouched { is_ok result ≡ false → self.new ≡ self.old }
        ensures lots { self.new.ledger.lots ≡ self.old.ledger.lots }
        ensures slips { self.new.ledger.slips ≡ self.old.ledger.slips }
    {
        let payment = self.check_payment(account, yen)?;
        pay(&mut self.balances, payment.account, payment.yen);
        self.entries += 1;
        Ok(self.entries)
    }

    // What a withdrawal moves, or the first cause that refuses it.
    fn check_withdrawal<S: Schedule>(
        &self,
        schedule: &S,
        account: u64,
        yen: u64,
    ) -> Result<Payment, Refusal>
        ensures { result ≡ answered (first (withdraw_causes (S.Schedule.base schedule.now) (view self.now) account yen)) (payment account yen) }
    {
        let payment = self.check_payment(account, yen)?;
        let most = self.withdrawable(schedule, payment.account);
        if most < yen {
            return Err(Refusal::Withdrawable(most));
        }
        Ok(payment)
    }

    // Takes yen from an account's deposit.
    pub fn withdraw<S: Schedule>(
        &mut self,
        schedule: &S,
        account: u64,
        yen: u64,
    ) -> Result<u32, Refusal>
        ensures answer { result ≡ answered (first (withdraw_causes (S.Schedule.base schedule.now) (view self.old) account yen)) (self.old.entries + 1) }
        ensures left { view self.new ≡ left_by (first (withdraw_causes (S.Schedule.base schedule.now) (view self.old) account yen)) (withdrawn (view self.old) account yen) (view self.old) }
        ensures whole { Whole (withdraw (S.Schedule.base schedule.now) account yen) (view self.old) (view self.new) }
        ensures untouched { is_ok result ≡ false → self.new ≡ self.old }
        ensures lots { self.new.ledger.lots ≡ self.old.ledger.lots }
        ensures slips { self.new.ledger.slips ≡ self.old.ledger.slips }
    {
        let payment = self.check_withdrawal(schedule, account, yen)?;
        pay(&mut self.balances, payment.account, -payment.yen);
        self.entries += 1;
        Ok(self.entries)
    }
}
