// The settings in the configuration pages, 009 Tables 7 to 15. No other function knows their places. A function for each, though some differ only in bit and
// page: each has its definition and its name in the data sheet.
ghost use Rattle.std.specs.Prelude.{◌≡◌};
ghost use Rattle.model.specs.Settings.{bit_set, random_id_on, auth0, read_protected, config_locked, incr_open, read_open, auth_limit, key_lock_bit};

use crate::pages::Pages;

// Bit k of a number of 16 bits is 1; above bit 15 all are 0.
#[tactic(auto, unfolding(bits::specs::Bits::bit_of))]
pub fn bit_set(k: u8, x: u16) -> bool
    ensures { result ≡ bit_set k x }
{
    k < 16 && (x >> k) % 2 == 1
}

impl Pages<'_> {
    // RID_ACT, Table 8: Random ID is on.
    #[tactic(auto, unfolding(model::specs::Settings::random_id_on))]
    pub fn random_id_on(&self) -> bool
        ensures { result ≡ random_id_on self.now.map self.now.bytes.now }
    {
        bit_set(0, self.byte(self.map.cfg0, 0).into())
    }

    // AUTH0, Table 9: seven bits, the first page that needs authentication.
    #[tactic(auto, unfolding(model::specs::Settings::auth0))]
    pub fn auth0(&self) -> u8
        ensures { result ≡ auth0 self.now.map self.now.bytes.now }
    {
        self.byte(self.map.cfg0, 3) % 128
    }

    // PROT, Table 10: reading needs authentication too.
    #[tactic(auto, unfolding(model::specs::Settings::read_protected))]
    pub fn read_protected(&self) -> bool
        ensures { result ≡ read_protected self.now.map self.now.bytes.now }
    {
        bit_set(7, self.byte(self.map.cfg1, 0).into())
    }

    // LOCK_USR_CFG, Table 10: the configuration pages are locked.
    #[tactic(auto, unfolding(model::specs::Settings::config_locked))]
    pub fn config_locked(&self) -> bool
        ensures { result ≡ config_locked self.now.map self.now.bytes.now }
    {
        bit_set(6, self.byte(self.map.cfg1, 0).into())
    }

    // CNT_INC_EN, Table 10: counter 2 may be raised without authentication.
    #[tactic(auto, unfolding(model::specs::Settings::incr_open))]
    pub fn incr_open(&self) -> bool
        ensures { result ≡ incr_open self.now.map self.now.bytes.now }
    {
        bit_set(3, self.byte(self.map.cfg1, 0).into())
    }

    // CNT_RD_EN, Table 10: counter 2 may be read without authentication.
    #[tactic(auto, unfolding(model::specs::Settings::read_open))]
    pub fn read_open(&self) -> bool
        ensures { result ≡ read_open self.now.map self.now.bytes.now }
    {
        bit_set(2, self.byte(self.map.cfg1, 0).into())
    }

    // AUTH_LIM, Tables 12 and 13: ten bits, the failed-authentication limit, 0 for none.
    #[tactic(auto, unfolding(model::specs::Settings::auth_limit))]
    pub fn auth_limit(&self) -> u16
        ensures { result ≡ auth_limit self.now.map self.now.bytes.now }
    {
        octets::low_first(self.byte(self.map.cfg1, 2), self.byte(self.map.cfg1, 3) % 4)
    }

    // Bit k of LOCK_KEYS, Table 14: bit 7 locks UIDRetrKey, bit 6 DataProtKey, and bit 5 LOCK_KEYS itself.
    #[tactic(auto, unfolding(model::specs::Settings::key_lock_bit))]
    pub fn key_lock_bit(&self, k: u8) -> bool
        ensures { result ≡ key_lock_bit k self.now.map self.now.bytes.now }
    {
        bit_set(k, self.byte(self.map.keylocks, 0).into())
    }
}
