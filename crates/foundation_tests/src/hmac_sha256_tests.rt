ghost use Rattle.std.specs.Prelude.{◌<◌};

use hmac_sha256::{Mac, hmac, pbkdf2, same_tag};
use std::alloc::Global;
use std::test::Fail;

// A key, a text and its HMAC-SHA256, in hex.
struct Tagged {
    key: &'static str,
    text: &'static str,
    tag: &'static str,
}

// Cases of RFC 4231 but the truncated one, keys and texts of about a block's length, and other keys and texts with
// the values that another implementation gives.
const TAGGED: [Tagged; 28] = [
    Tagged {
        key: "0b0b0b0b0b0b0b0b0b0b0b0b0b0b0b0b0b0b0b0b",
        text: "4869205468657265",
        tag: "b0344c61d8db38535ca8afceaf0bf12b881dc200c9833da726e9376c2e32cff7",
    },
    Tagged {
        key: "4a656665",
        text: "7768617420646f2079612077616e7420666f72206e6f7468696e673f",
        tag: "5bdcc146bf60754e6a042426089575c75a003f089d2739839dec58b964ec3843",
    },
    Tagged {
        key: "aaaaaaaaaaaaaaaaaaaaaaaaaaaaaaaaaaaaaaaa",
        text: "dddddddddddddddddddddddddddddddddddddddddddddddddddddddddddddddddddddddddddddddddddddddddddddddddddd",
        tag: "773ea91e36800e46854db8ebd09181a72959098b3ef8c122d9635514ced565fe",
    },
    Tagged {
        key: "0102030405060708090a0b0c0d0e0f10111213141516171819",
        text: "cdcdcdcdcdcdcdcdcdcdcdcdcdcdcdcdcdcdcdcdcdcdcdcdcdcdcdcdcdcdcdcdcdcdcdcdcdcdcdcdcdcdcdcdcdcdcdcdcdcd",
        tag: "82558a389a443c0ea4cc819899f2083a85f0faa3e578f8077a2e3ff46729665b",
    },
    Tagged {
        key: "aaaaaaaaaaaaaaaaaaaaaaaaaaaaaaaaaaaaaaaaaaaaaaaaaaaaaaaaaaaaaaaaaaaaaaaaaaaaaaaaaaaaaaaaaaaaaaaaaaaaaaaaaaaaaaaaaaaaaaaaaaaaaaaaaaaaaaaaaaaaaaaaaaaaaaaaaaaaaaaaaaaaaaaaaaaaaaaaaaaaaaaaaaaaaaaaaaaaaaaaaaaaaaaaaaaaaaaaaaaaaaaaaaaaaaaaaaaaaaaaaaaaaaaaaaaaaaaaaaaaaa",
        text: "54657374205573696e67204c6172676572205468616e20426c6f636b2d53697a65204b6579202d2048617368204b6579204669727374",
        tag: "60e431591ee0b67f0d8a26aacbf5b77f8e0bc6213728c5140546040f0ee37f54",
    },
    Tagged {
        key: "",
        text: "",
        tag: "b613679a0814d9ec772f95d778c35fc5ff1697c493715653c6c712144292c5ad",
    },
    Tagged {
        key: "01010101010101010101010101010101010101010101010101010101010101010101010101010101010101010101010101010101010101010101010101010101",
        text: "78",
        tag: "c668fc54e1a2a267c502413f4580c5bb5d9229fef5fb9b4ff5f4ce5e76299783",
    },
    Tagged {
        key: "0101010101010101010101010101010101010101010101010101010101010101010101010101010101010101010101010101010101010101010101010101010101",
        text: "",
        tag: "64fe4bbddcb2a92f94cfea8110bd7ca1aaf32e8093d49fa604534abd7cb2a3ae",
    },
    Tagged {
        key: "dd737b16e3d4a428feea59295d5136dde5182a804f9e776f4b58e95e0e59e4d073b6037cb92bd3f42504533f8012489054dbb99df05d162ef95e9a06fa50aee619d08eedba61aaa8d58a24af5d1a7d52396e9c4c8a313fb8aa6748b27ad77125110f8808",
        text: "9556aa84699926d90f502343d009a71a952c3dfb82f9f294ebf6ba1e1b2c79361c61a99cb8ea0394db6cc47b6054e82430673b1d67fddd3aaae091bbb9220dbe",
        tag: "09dec4bbcf773f054e889debb17c05ca7cb7eca30b13e390a760007c7e275524",
    },
    Tagged {
        key: "cafc2b5320ffb8882b87134ed43ffcfc3364ea62a4d6ca433a5a530030f746d9a272daa22b78b41fdb428675f44c3c59e6bddd08de552eca909b3e9c01b0eecd",
        text: "af13f2cf4004701027317958afb3e457b11f7a12a01eb2ceb6a297c93deffba96d1d61e423da00a0e85c2a1214a6cb91f02c73385b781f78f73270a97dba0c31d7",
        tag: "5cbbc8b62498927d3963df6099b112976826e053bf0facea798760be4623121b",
    },
    Tagged {
        key: "8d",
        text: "aaf6411bc92cd851f954d7edaf0fe8ee7d4b40215965fab3819823c6a81d1cef2e462578082224f529c949df7d2accc5a0c143e4c893cfe9e3cdb0af66d44233dd0bc13626b6a96cf8635eecfc99d4e3c85880a482dac5aaccb6c883cb18cbae44d2d65ac631cd363afa7075281290fc2ec2bc8087e13a290eba8f81207f6031c168dbde6ae2ae92f79c2f7db480844bc02c0d05a07e0afbeb0df33696ea8e720dc641c18f9552672bf17df4185444d87d207cac9c1da8ded678e67f49f3949dee55336010d8f84c71bb98857ae72092cccfc9b1299d0765d796356a59c751c9b195789a45cadf740e27bdee87a040096c2589c98582bcbf53a28ad94b3517bf5a23e79918876eba81b52b94de3f3df02df6f6f752d63938e830ab871305da80eb35fe1ed2615afcc008c3d0",
        tag: "b47762fc167e6f61ea6d801a9f391e1fd2a5d721b7b197fa8d1c6277820cabee",
    },
    Tagged {
        key: "1ca984734973ac855d65df30998744a41d85c015d99e91f80bce4c159cf9df8124b79535451107e1edff3398d2bb0a3652bfc421bc534a5ccddb6bba7f10df19",
        text: "9d",
        tag: "f121354c3e4320724e3d6e00223fe8a19f3425298606025ab1e04e2546032b3c",
    },
    Tagged {
        key: "f113116bbd9664303dea7b5ce3e871747d573b1f050543f4efb6731056d0c962330b9f440dd28f1d5d160f1e001364a07d3ce34e1db3c84ecc039331e6fdb252",
        text: "afed52c8fd807dca2c457f691f013122ace2598aa9a5029be6a62423969f823f7afb3a30b09097bd7972ba13a245f5a2c57454003df2e3",
        tag: "ac2460d36aff65f00cef6f550556a5480300914b8d9124db71899e5976f2019c",
    },
    Tagged {
        key: "807dc7bbb42a61f092a955a773722bb1",
        text: "49a183c90537cf550def4178a0022748f07f01f18105f5c6dacda98d623bc5337f1597a633685e3152940619ceaada55658dc3e80024c61ce3b5f7588e3b1edc",
        tag: "5f2990ecf14c40b4754a5a2bd37ef973dcb0d8b52819ad849da651992db4a36a",
    },
    Tagged {
        key: "d2ffda591372a46420739fce43c7f4f94edcdf2294f1f2d03069d83b0ebf702d8369f2f52bf5639f6f59e7050106952784741da28cd23de0a96dcc07c6e5e835",
        text: "57e2205c8b718e23687fe4ebe5140ca3c9c34b3f904b5c267c10d55b57cd732ba46e2b500f318122a9bbbea4d62ef666bb685a8e2b59d4a0f4eb930bb61124",
        tag: "02c8fe949cfc7e25c407c8339767b5e1fab38351558bfc2c48a6cd0c8baa8e2b",
    },
    Tagged {
        key: "cd4793533c993259847f3c4d87e65d23edb8d4c7c894ebcce9895bdb855a8197a1abef89ae2b2048a15624d0e6463803a73e3b9177dfbc8bad7a6992e6cc3e",
        text: "85",
        tag: "08ce47df66e78bdc6b8d3566a87e98e87ab7b53cc66e0d8aa1d275b2cf924d67",
    },
    Tagged {
        key: "e9f1a9a55c01dd58fe8e23dbf4a3db9246815fa80c881ed8d34e6aa4a978d660f5a54f8cfc68c4294569c2afd0de7b0f6c751ac6d5ca42aa3f0023f421c2d75654",
        text: "",
        tag: "ca0ec44cc59e5896c6397e080ef454ee9c0b849b693eee185fdc6f2809a1e34d",
    },
    Tagged {
        key: "abc5087c7ca74dd66537b533956f38e3c541c99694a6b5967adfc484b2839b739fe23627e309a3425a0b5ca0013bc259a113c2b5bfd0cd8025f898ce020b4b",
        text: "1619dc660a9df7e50e953c6838d9c620dea5161ef59ad28fd35a9c64ee4f339b237922e17578845ced14a19be9a0d68265c993b4ade06ddc891a0f9d1fb0b5",
        tag: "62dd570fcd0ba50fdeaf790a7f746a991c286811176e093f4d5f550afaf6d101",
    },
    Tagged {
        key: "ad1815e8a9d00accda3d91b95e6ef2e4f0ad197ff45091374ab96bae6842b1b8992ece5d38f812bea1f6a184c9ff27e307411d95814cf9fd6d622fce86dd41d878383ab4da4f70387ee6e5c6b604ec9060cb2a23545a7e077db50101f245d394866ac354ea83033e52ea8ce017358c96eff55af1d3d5ca7e0a463764917a348e9c146c1a785eb25d6418b542b6fb6a3d4a5be512547d4fea8c0ca83c94696a6fbc69c5ed1c0bfc01b86406382adac7c81b2d902b82480b21b7ef07bdac21d6b5f026b4afd8917c78",
        text: "6ad28adf7dd885fba8d5c9bc44f12a9b61defb6940d6a45823b36bc31e5f3ac67b8aed8726b4a3db26be2e12d2e694baec3ff04c1a77b8",
        tag: "61f770c583e67e0dcc165dcc33fa4d35455012ae3afb62f7fb62fe1c049b5680",
    },
    Tagged {
        key: "2b087a2951b1691049af2b86b6629d8b2e4f91571c4fbc6c21b49a4929a9d357d1aeae5d9101a839a653cef43848ccc78dfe3a3f961de35e315e8a3a4c428c85",
        text: "d6f7d2ca55ad63a1d148f21d603c70bd436fdf5d8cb9983f1165691b516936b7d9cbf7a25f36e16165c3b86bdbaaa1aecb5adf3c05e29491265d27fcaa1a12772a",
        tag: "1c8b8059abcb27a265a2ad8f69badcf1d70c5c155d6a9774a5a7719fd242c669",
    },
    Tagged {
        key: "2b9a144f5cc09cabae0e0466fea8a3c94c65fb1a105f982c73a78711c6e021216a7f5790ddb3a00cbfaf5e0b4ca5570b6512ef669fe2775a2e724f5a0acd5247fa95a239d34df5af5f39c6d954629cc946c90c9912abaf3569347233b8b7f718ec843f7a59fc1f1ab18af456c7f1b8a34b528a1fc4a08427544f9dde8f1984e2ce4dc089b799c09e94d730e60a3ebb8f71ca8cc7fb630ccc371747324d92b968e7b5b757f93acc3d686306234735a27b051e6cf01381d1fe837f36b56d1b5457c043c70051b12af8",
        text: "74df15f435a6f01413f81b3c29daf9588a2b1e7aa4cfe449113793bef9734d2d7664e41def6a81a35e42cf890e94000b3008a7b3ecc425d05afc93022d6b88",
        tag: "56244a6dedaf4409d2bcfd7044d63dd2d5023df9a8f7491b01f6e17d9219cdc1",
    },
    Tagged {
        key: "4a",
        text: "84116b352496e994ded3992641ab8d209e0ef53cfad0879f8b310aa22c5f7c6f067eb72fa1f79890bad69d7c9cce832bcdb90b596742c2",
        tag: "36a55dfb97a8287d52e5b05f16d63482eaaeb4053b49e7c99ae16ec5c0d8898f",
    },
    Tagged {
        key: "a2179a8e9711b2ccd6887adf9f5ce6aad6f6ed770f2e54c1a7f1df76ad3780f8e4f9c55f9751e25eeb51d189901d0feeeeba2c0fbac7fd8dbf95f6b9d4a92cff6d620acc0e542ccee6f74b4133ee96a23ccadd886035663ee9db4f45dfa4803c70a5972c0e5e3b6b8db96f3b780d49af6e1ceeae3eb53d505e3e786c38fbfc7c882b9677361b7b555f3900414f9c20e5e797842d95d1ac302d44b3bc7786e4e71269d8678d7bd7b77beb3d0df937ea23e07ff2c2df073f0c5f61d87b2279fd2b71a82abc79f3b27f",
        text: "2f42fb7e8c839deeff3d46f6fc7b2386b4f9f851a75529af1b7cd21ed1bf4897dea13f8e7428a8e6589ea46844cdac24c619919374b4fd520c9a7136e84d76",
        tag: "51708fffef7eaa2451599feaf730de747bd6f219cb163e307241de205b2cfde9",
    },
    Tagged {
        key: "028537b26f355e429b5ce2af58cd16af8f25368e718e9fcae7e14575ccfd7365a3f54cba47cba68eb5a06b9dec764c9dc989c930f822b5712845bb22716297d12a",
        text: "0e",
        tag: "0796752aa0cca14c0cac01a6675df9164dbc21874bbc9bef0718faff6b26b115",
    },
    Tagged {
        key: "6171707089bdd9637b2a869628e4fc5ca63dc5b471300457b4a170d2c33a477da02a5c00bce17911eb32938cb320a8ce72374a90f8a828db264cf0504de0b857f9",
        text: "cf452e2ac01b6fb5842314ae68a6f80583f994a6f0f2636e3b11dc57fc3de17778a3929064e84da2cad5ead38380416108f93adec878f3ac",
        tag: "f5c195a2d527e96c1396b4aa2eaef8ed04c0e32bcd45b7c1ea183d9c4c655688",
    },
    Tagged {
        key: "fa6f7092fb8471e53eff58339b4eb57034314ba3bed276eea97d954c781ac55e86ec67a93e5fc07cac4867f0e73b241f0183e78a74f49bfb022d20c3522c595b822fee0b6ef9972c1813f6b0f3cc1a605831de47198fefbf4315e7f7e6492ccb7fea18ff",
        text: "df49bae6eb8ef49dc73ac2579229dd7738a867cd684e5205ba24db384de3b01eb7cbc160b2ef81b7b57e29fb3702588387ee2adf816cf6",
        tag: "e9b7c966ef10e6906225c24f1159105c2bc7b06d84fc3c209194483a178a1275",
    },
    Tagged {
        key: "53618df6128a2e4660a35bb381d8d121",
        text: "cc01d2cdc6c3a8f78a2334b972eb7bd2b506382b8bc55bf6eb7765610b73ee815fc5bf80cb12141815c78434afdc57cb856f2aef44f29ecffde9746d7f06a2",
        tag: "33118db3f6b1d4f8d4a0810f56a5f2101f80536bd1b97dabbdcfe97761dcdf58",
    },
    Tagged {
        key: "47d8e170fd38d38cc53ca9c003a4f512f7982439a1fbc1f1e97c0e95d2d818e4f746f22353ca6adc10ca2d673c0f026802acdf45a6eb13257f29e1eefbeb3fff453259dbe17ca8c352045e307c212ac49eae35bcedae8cba50021877c2a7b4b15e4635a7cd0ef0ba93c8781dae73478c91c40bda60565e0fa829cb05d20c1c4aa199af2936aa70354061f842ce6b4d4047f5305262c959d520b5132fea5d59e3416b0d6af26f647ccb1319f794a9d39f0c5263231a77b723f19a675b9daafa093a9ae13c35345c87",
        text: "a656f1208bb730cd57bece75aed5f779f73e83c1d19f21309ae4031c86175e58bef6c0a99eca6ddb416bfca07f9ce12a22cff41608a741cb3ce9ecc533c8358172d3641b72a0ab8868e1830933009fa771ea3cbaa7ef25f0a2c9369d0b617707ea163c98e11f20c5ad767f2aafed82b68a3065821d926dd2",
        tag: "2380b93346a4c41f544f027402dc05e08573e5393c7876e4ee71d620fe68a87a",
    },
];

// A password and a salt in hex, a count of rounds, and PBKDF2's first block in hex.
struct Derived {
    password: &'static str,
    salt: &'static str,
    rounds: u32,
    block: &'static str,
}

const DERIVED: [Derived; 7] = [
    Derived {
        password: "70617373776f7264",
        salt: "73616c74",
        rounds: 1,
        block: "120fb6cffcf8b32c43e7225256c4f837a86548c92ccc35480805987cb70be17b",
    },
    Derived {
        password: "70617373776f7264",
        salt: "73616c74",
        rounds: 2,
        block: "ae4d0c95af6b46d32d0adff928f06dd02a303f8ef3c251dfd6e2d85a95474c43",
    },
    Derived {
        password: "70617373776f7264",
        salt: "73616c74",
        rounds: 3,
        block: "ad35240ac683febfaf3cd49d845473fbbbaa2437f5f82d5a415ae00ac76c6bfc",
    },
    Derived {
        password: "70617373776f7264",
        salt: "73616c74",
        rounds: 1000,
        block: "632c2812e46d4604102ba7618e9d6d7d2f8128f6266b4a03264d2a0460b7dcb3",
    },
    Derived {
        password: "50617373776f7264",
        salt: "73616c74",
        rounds: 1,
        block: "07a5193d55b70d380189cb7ecedb1230b56586d3c572c14f2e9738e8afee37c5",
    },
    Derived {
        password: "",
        salt: "",
        rounds: 1,
        block: "f7ce0b653d2d72a4108cf5abe912ffdd777616dbbb27a70e8204f3ae2d0f6fad",
    },
    Derived {
        password: "70707070707070707070707070707070707070707070707070707070707070707070707070707070707070707070707070707070707070707070707070707070707070707070",
        salt: "73737373737373737373737373737373737373737373737373737373737373737373737373737373737373737373737373737373737373737373737373737373737373737373",
        rounds: 5,
        block: "8f9abc1d8dff1503ad2d0baaf2206d6c1cd887e4fa36901e02b6ad7d6e6df5cd",
    },
];

// The number that a hex digit stands for.
fn nibble(digit: u8) -> u8
    ensures { result < 16 }
{
    match digit {
        b'0'..=b'9' => digit - b'0',
        b'a'..=b'f' => digit - b'a' + 10,
        _ => 0,
    }
}

fn bytes(alloc: Global, hex: &str) -> Result<Vec<u8>, Fail> {
    let mut out = Vec::new(alloc);
    for pair in hex.as_bytes().chunks(2) {
        if let [high, low] = pair {
            out.push(nibble(*high) * 16 + nibble(*low))?;
        }
    }
    Ok(out)
}

#[test]
fn tags_of_the_vectors(rt: HostRuntime) -> Result<(), Fail> {
    for row in &TAGGED {
        let key = bytes(rt.alloc(), row.key)?;
        let text = bytes(rt.alloc(), row.text)?;
        let tag = bytes(rt.alloc(), row.tag)?;
        assert_eq!(rt;
            hmac(&key, &text).as_slice(),
            tag.as_slice(),
            "under {}",
            row.key
        );
    }
    Ok(())
}

#[test]
fn pieces_make_one_text(rt: HostRuntime) {
    let mut mac = Mac::new(b"Jefe");
    mac.put(b"what do ya want ");
    mac.put(b"");
    mac.put(b"for nothing?");
    let whole = hmac(b"Jefe", b"what do ya want for nothing?");
    assert!(rt; same_tag(&mac.finish(), &whole));
    assert!(rt; !same_tag(&hmac(b"Jefe", b"what do ya want for nothing"), &whole));
}

#[test]
fn blocks_of_the_vectors(rt: HostRuntime) -> Result<(), Fail> {
    for row in &DERIVED {
        let password = bytes(rt.alloc(), row.password)?;
        let salt = bytes(rt.alloc(), row.salt)?;
        let block = bytes(rt.alloc(), row.block)?;
        assert!(rt; row.rounds >= 1);
        let found = pbkdf2(&password, &salt, row.rounds);
        assert_eq!(rt;
            found.as_slice(),
            block.as_slice(),
            "after {} rounds",
            row.rounds
        );
    }
    Ok(())
}
