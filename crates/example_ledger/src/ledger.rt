//! A ledger of accounts. It forgets an account that no client holds.
use indexmap::IndexMap;
use rmi_server::{Call, CallFault, KindFault, KindList, ObjId, Reply, Service, kind};
use std::alloc::Global;

/// The number of the kind of ledgers.
pub const LEDGER: u32 = 0;

/// The number of the kind of accounts.
pub const ACCOUNT: u32 = 1;

/// The kinds, as Java's interfaces of these names have them.
pub fn kinds(alloc: Global) -> Result<KindList, KindFault> {
    let mut kinds = KindList::new(alloc);
    let ledger = ["open()Lexample/Account;", "total()J"];
    kinds.push(kind(alloc, "example.Ledger", &ledger)?)?;
    kinds.push(kind(alloc, "example.Account", &["add(J)J"])?)?;
    Ok(kinds)
}

/// Accounts, each with its balance.
#[derive(Drop)]
pub struct Ledger {
    pub balances: IndexMap<ObjId, i64>,
}

impl Ledger {
    /// Adds an amount to an account, and returns its new balance.
    fn add(&mut self, call: &Call<'_>, amount: i64) -> Result<Reply, CallFault> {
        let balance = self
            .balances
            .get(&call.object())
            .map_or(0, |balance| *balance);
        let Some(sum) = balance.checked_add(amount) else {
            let text = "java.lang.ArithmeticException: overflow";
            return Err(CallFault::exception(call.alloc, text));
        };
        self.balances.insert(call.object(), sum)?;
        Ok(Reply::Long(sum))
    }

    /// Returns the sum of all balances, or the greatest or least number past which it is.
    fn total(&self) -> i64 {
        let mut total: i64 = 0;
        for (_account, balance) in &self.balances {
            total = total.saturating_add(*balance);
        }
        total
    }
}

impl Service for Ledger {
    fn call(&mut self, call: &Call<'_>) -> Result<Reply, CallFault> {
        match call.name() {
            b"open" => Ok(Reply::New(ACCOUNT)),
            b"add" => self.add(call, call.long(0)?),
            b"total" => Ok(Reply::Long(self.total())),
            _ => Err(CallFault::UnknownMethod),
        }
    }

    fn unreferenced(&mut self, account: ObjId) {
        let _old = self.balances.shift_remove(&account);
    }
}
