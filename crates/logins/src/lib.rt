// Whole logins with the tag, in the texts of `playing::play`. tools/logins.py works them out again from the standards.
#![tactic(auto)]

use playing::play;

// The image is that of the cases in `model`, with Random ID on and AUTH0 38h (page 29h), PROT and AUTH_LIM 0028h (page 2Ah), and 20 failed attempts.
// So READ 38h is answered 0 in AUTHENTICATED alone, and READ 00h shows the serial number there and in TRACEABLE: the two tell the states apart. A change of
// the image begins with its place: C1h is DataProtKey, D1h UIDRetrKey, FCh the failed count and FFh the originality key.
fn session(text: &[u8]) {
    play::session(
        b"3c\
          04512cf15a93c71e1048000000000000\
          04fb1d3505fa244206f92b4f07f8325c\
          08f7396909f640760af547830bf44e90\
          0cf3559d0df25caa0ef163b70ff06ac4\
          10ef71d111ee78de12ed7feb13ec8607\
          14eb8d1415ea942116e99b2e17e8a23b\
          18e7a94819e6b0551ae5b7621be4be6f\
          1ce3c57c1de2cc891ee1d3961fe0daa3\
          20dfe1b021dee8bd22ddefca23dcf6d7\
          24db02e425da09f126d9100d27d8171a\
          00000000010000388c0528002bd4334e\
          2cd33a5b000000002ed148752fd04f82\
          30cf568f31ce5d9c32cd64a933cc6bb6\
          34cb72c335ca79d036c980dd37c887ea\
          38c78e0639c695133ac59c203bc4a32d\
          03000000000000000000\
          011400\
          012b7e151628aed2a6abf7158809cf4f3c",
        text,
    );
}

// A function each: as rows of one table their comments would stand beside texts of ten lines.

// 009 Table 17 in full: the key is zero.
fn table_17() {
    session(
        b"MF0AES(H)20 Table 17: |\
          c100000000000000000000000000000000|\
          power,P,0,;\
          READ 38h in WAITING,3038c915,1,;\
          select,S,0,;\
          READ 00h in ACTIVE,300002a8,0,00000000000000000048000000000000dd50;\
          READ 38h in ACTIVE,3038c915,6,0;\
          select again,S,0,;\
          part 1,1a004176,0,afd5a847b84862ff3874a7f07b8ddf351b87e7,1ae4174ca173ebbc59165cebe2f20821;\
          part 2,afcdf22c5f7a92f0af0155612b9b236ac7a424bc5238d41ad041b8165b7d99e524334a,0,002c743d6b1e128f8076bd197b76012ce86bb3;\
          READ 00h in AUTHENTICATED,300002a8,0,04512cf15a93c71e1048000000000000cbe0;\
          READ 38h in AUTHENTICATED,3038c915,0,38c78e0639c695133ac59c203bc4a32d88f5|\
          c100000000000000000000000000000000;fc0400",
    );
}

// The key 000102..0F as DataProtKey, from the image.
fn data_prot_key() {
    session(
        b"DataProtKey: |\
          c10f0e0d0c0b0a09080706050403020100|\
          select,S,0,;\
          READ 00h in ACTIVE,300002a8,0,00000000000000000048000000000000dd50;\
          READ 38h in ACTIVE,3038c915,6,0;\
          select again,S,0,;\
          part 1,1a004176,0,af5c051c31e4a777747c38eba4dc62e073b575,ae2d8a571e03ac9c9eb76fac45af8e51;\
          part 2,af47c58d5e21caaf840d015b7d9b9109816898c6e3149d843ab3d7ca2c7c2701f8f5ba,0,00cd6a8fac009a5bf64bbaa857e60ce895b382;\
          READ 00h in AUTHENTICATED,300002a8,0,04512cf15a93c71e1048000000000000cbe0;\
          READ 38h in AUTHENTICATED,3038c915,0,38c78e0639c695133ac59c203bc4a32d88f5|\
          c10f0e0d0c0b0a09080706050403020100;fc0400",
    );
}

// The same key, stored by the four WRITEs of 009 8.6.3.
fn written_key() {
    session(
        b"DataProtKey of MF0AES(H)20 8.6.3: |\
          c100000000000000000000000000000000|\
          select,S,0,;\
          WRITE 30h,a2300f0e0d0c00b3,0,a;\
          WRITE 31h,a2310b0a09088d88,0,a;\
          WRITE 32h,a232070605041ac4,0,a;\
          WRITE 33h,a2330302010097ff,0,a;\
          part 1,1a004176,0,afae4ea8f78fb85884cb77dc4d11e98392aecb,f69f2445df4f9b17ad2b417be66c3710;\
          part 2,af8c5c6e72e453a92a446ce7d78c221eac169142c164141421f486fa9c08b98026c00f,0,00ab50baa72068aa9825ede06dadf22141609d;\
          READ 00h in AUTHENTICATED,300002a8,0,04512cf15a93c71e1048000000000000cbe0;\
          READ 38h in AUTHENTICATED,3038c915,0,38c78e0639c695133ac59c203bc4a32d88f5|\
          c10f0e0d0c0b0a09080706050403020100;fc0400",
    );
}

// The same key as UIDRetrKey: TRACEABLE shows the serial number, and opens no page.
fn uid_retr_key() {
    session(
        b"UIDRetrKey: |\
          d10f0e0d0c0b0a09080706050403020100|\
          select,S,0,;\
          READ 00h in ACTIVE,300002a8,0,00000000000000000048000000000000dd50;\
          READ 38h in ACTIVE,3038c915,6,0;\
          select again,S,0,;\
          part 1,1a01c867,0,af89ed5e6a05ca76338135085fe21c40bd4043,3243f6a8885a308d313198a2e0370734;\
          part 2,af69c4e0d86a7b0430d8cdb78070b4c55a0e368877858036dffab4c6b5e5ccacf5fd23,0,000dbedd87a7840ae695de334e94d35e50e557;\
          READ 00h in TRACEABLE,300002a8,0,04512cf15a93c71e1048000000000000cbe0;\
          READ 38h in TRACEABLE,3038c915,6,0|\
          d10f0e0d0c0b0a09080706050403020100;fc0400",
    );
}

// The same key as originality key: the tag is ACTIVE as before.
fn originality_key() {
    session(
        b"originality key: |\
          ff000102030405060708090a0b0c0d0e0f|\
          select,S,0,;\
          READ 00h in ACTIVE,300002a8,0,00000000000000000048000000000000dd50;\
          READ 38h in ACTIVE,3038c915,6,0;\
          select again,S,0,;\
          part 1,1a025355,0,afa027f9e2d71ddb246c427651e47147d972b6,3925841d02dc09fbdc118597196a0b32;\
          part 2,af4f638c735f614301567824b1a21a4f6ad190e3c83aa2d0f0066773976c1c5f413576,0,0051435355b7bfaf2ec3834a073acaa463eb62;\
          READ 00h in ACTIVE as before,300002a8,0,00000000000000000048000000000000dd50;\
          READ 38h in ACTIVE as before,3038c915,6,0|\
          ff000102030405060708090a0b0c0d0e0f;fc0400",
    );
}

// Table 17 with the last bit of the second block changed before it was enciphered: the count is raised.
fn false_proof() {
    session(
        b"false proof: |\
          c100000000000000000000000000000000|\
          select,S,0,;\
          part 1,1a004176,0,afd5a847b84862ff3874a7f07b8ddf351b87e7,1ae4174ca173ebbc59165cebe2f20821;\
          part 2,afcdf22c5f7a92f0af0155612b9b236ac737c3e1ee82f4fc1c007ef3dcbc3d16746098,8,0;\
          READ 38h in WAITING,3038c915,1,;\
          select again,S,0,;\
          READ 38h in ACTIVE,3038c915,6,0|\
          c100000000000000000000000000000000;fc1500",
    );
}

// Table 17 with one bit of the ciphertext changed and the CRC_A kept: the count stays.
fn garbled_proof() {
    session(
        b"garbled proof: |\
          c100000000000000000000000000000000|\
          select,S,0,;\
          part 1,1a004176,0,afd5a847b84862ff3874a7f07b8ddf351b87e7,1ae4174ca173ebbc59165cebe2f20821;\
          part 2,afcdf22c5f7a92f0af0155612b9b236ac7a424bc4238d41ad041b8165b7d99e524334a,2,1;\
          READ 38h in WAITING,3038c915,1,|\
          c100000000000000000000000000000000",
    );
}

// Table 17 with the last byte of the expected ciphertext changed, to show that a difference is told.
pub fn changed_reply() {
    session(
        b"a changed reply byte is reported: |\
          c100000000000000000000000000000000|\
          select,S,0,;\
          part 1,1a004176,0,afd5a847b84862ff3874a7f07b8ddf351a87e7,1ae4174ca173ebbc59165cebe2f20821|\
          c100000000000000000000000000000000",
    );
}

pub fn logins() {
    table_17();
    data_prot_key();
    written_key();
    uid_retr_key();
    originality_key();
    false_proof();
    garbled_proof();
}
